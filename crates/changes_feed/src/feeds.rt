//! Looks at feeds.

ghost use Rattle.std.specs.Prelude.{◌≡◌, ◌↔◌, ◌<◌, ◌≤◌, ◌+◌, ◌*◌, ◌-◌, [], ℕ, List, true, length, max, IsTrue, IfOk, OnOk, OnErr};
ghost use Rattle.sg_history.specs.declared.entries.Entry.{Entry};
ghost use Rattle.sg_history.specs.Feed.{feed};
ghost use Rattle.sg_history.specs.History.{Extends, among, past};
ghost use Rattle.log_index.specs.Places.{document_at};
ghost use Rattle.log_index.specs.declared.documents.Document.{Document};
ghost use Rattle.grant_history.specs.Periods.{AreInOrder, ArePeriods};
ghost use Rattle.grant_history.specs.Stands as grants_at;
ghost use Rattle.feed_rows.specs.KnownDocuments.{AreKnown, HaveAll, names_in};
ghost use Rattle.feed_rows.specs.Lasting.{AreToSearch};
ghost use Rattle.feed_rows.specs.PassAt.{IsViewer};
ghost use Rattle.channel_cache.specs.Kept.{AreAsBefore, AreEmpty, WereAsked, asked, refills_at};
ghost use Rattle.channel_cache.specs.Listed.{listed_in, sequences_of};
ghost use Rattle.channel_cache.specs.Reads.{ask_reads, passed};
ghost use Rattle.channel_cache.specs.Stands.{IndexesTo, StandsFor, has};
ghost use Rattle.changes_feed.specs.FeedReads.{advance_reads, look_reads};
ghost use Rattle.changes_feed.specs.Feeds.{ArePeriodsOf, FeedsStandFor, of_users};
ghost use Rattle.changes_feed.specs.inner.Segment.{SegmentAt};
ghost use Rattle.changes_feed.specs.Switches as switches;
ghost use Rattle.changes_feed.specs.Switches.{AreSwitches, has_at};
ghost use Rattle.changes_feed.specs.inner.Bounds.{IsSteady};
ghost use Rattle.std.specs.List.{All};

use crate::listed::add_listed;
use crate::periods::{KeptPeriods, keep_periods, take_periods};
use crate::segment::{Segment, pass};
use crate::switched::switched_since;
use channel_cache::Lists;
use feed_rows::laws::{known, order};
use feed_rows::{Viewer, rows_of_documents, viewer_of};
use grant_history::{GrantHistory, Period};
use log_index::LogIndex;
use log_views::Filter;
use lru::LruCache;
use sg_history::{ChannelName, Key, LogReads, Name, Options, Rows};
use sg_outside::Memory;
use std::alloc::{AllocError, Global};
use std::marker::Model;
use std::num::NonZeroUsize;

/// The rows of a look, and how many channels were looked up in the whole log for it.
#[derive(Drop)]
pub struct Advanced {
    pub rows: Rows,
    pub refills: u64,
}

/// What looks at feeds keep between them: the documents of the channels that were asked for last, a history of grants, and
/// the periods of the users that looked last.
#[derive(Drop)]
pub struct Feeds {
    alloc: Global,
    lists: Lists,
    history: GrantHistory,
    periods: KeptPeriods,
}

impl Model for Feeds {
    ghost use Rattle.changes_feed.specs.Feeds.{FeedsKept, of_users};

    ghost Value = { FeedsKept };

    ghost view = { λ f. record {
      lists = f.lists;
      history = f.history;
      periods = of_users f.periods.entries;
    } };
}

fn crosses_threads<T: Send>(_value: &T) {}

/// Feeds may be sent to another thread.
fn feeds_cross_threads(feeds: &Feeds) {
    crosses_threads(feeds);
}

/// What a look found in the log: the documents, and how many channels were looked up in the whole log.
#[derive(Drop)]
struct Gathered<'a> {
    segment: Segment<'a>,
    refills: u64,
}

/// The first place of the segment of a since key.
fn first_of(since: &Key) -> u64
    ensures { result ≡ switches.first_of since.now }
{
    since.by.max(1)
}

/// Whether the segment of a since key begins past the front.
fn is_past(since: &Key, front: u64) -> bool
    ensures { IsTrue result ↔ (front < switches.first_of since.now) }
{
    front < first_of(since)
}

/// No rows, nothing looked up.
fn nothing(alloc: Global) -> Advanced
    ensures rows { result.rows ≡ [] }
    ensures refills { result.refills ≡ 0 }
{
    Advanced {
        rows: Rows::new(alloc),
        refills: 0,
    }
}

/// What a pass over a segment knows, with the documents of these sequences.
fn segment_with<'a>(
    alloc: Global,
    viewer: &Viewer<'_>,
    index: &LogIndex,
    log: &mut LogReads<'a>,
    sequences: &[u64],
    start: u64,
    front: u64,
) -> Result<Segment<'a>, Memory>
    requires low { 0 < start }
    requires high { start ≤ front }
    requires within { front ≤ length log.old.entries }
    requires index { IndexesTo index.now log.old.entries front }
    requires viewer { IsViewer viewer.now (past log.old.entries front) }
    requires listed { (channels : List (List ℕ)) × (sequences.now
        ≡ sequences_of (listed_in (past log.old.entries front) channels)) }
    ensures segment { IfOk result (λ segment. SegmentAt
        viewer.now start log.old.entries front segment) }
    ensures has { IfOk result (λ segment. (doc : List ℕ) (d : Document)
        → document_at (past log.old.entries front) doc ≡ Some d
        → has sequences.now d.last ≡ true
        → among (names_in segment.documents.items) doc ≡ true) }
    ensures log { log.new.entries ≡ log.old.entries }
    ensures reads { log.new.reads ≤ log.old.reads
        + (4 * passed log.old.entries (start - 1) front + 2 * length sequences.now) }
{
    let mut segment = pass(alloc, viewer, index, log, start, front)?;
    add_listed(viewer, index, log, &mut segment, sequences, start, front)?;
    Ok(segment)
}

/// What a pass over a segment knows, with the documents of the channels that were gained or lost in it.
fn gather<'a>(
    alloc: Global,
    lists: &mut Lists,
    viewer: &Viewer<'_>,
    index: &LogIndex,
    log: &mut LogReads<'a>,
    channels: &[ChannelName],
    start: u64,
    front: u64,
) -> Result<Gathered<'a>, Memory>
    requires low { 0 < start }
    requires high { start ≤ front }
    requires within { front ≤ length log.old.entries }
    requires stands { StandsFor lists.old log.old.entries }
    requires index { IndexesTo index.now log.old.entries front }
    requires viewer { IsViewer viewer.now (past log.old.entries front) }
    ensures segment { IfOk result (λ gathered. SegmentAt
        viewer.now start log.old.entries front gathered.segment) }
    ensures has { IfOk result (λ gathered. (doc : List ℕ) (d : Document)
        → document_at (past log.old.entries front) doc ≡ Some d
        → has (sequences_of (listed_in (past log.old.entries front) channels.now)) d.last ≡ true
        → among (names_in gathered.segment.documents.items) doc ≡ true) }
    ensures refills { IfOk result (λ gathered. gathered.refills
        ≡ refills_at lists.old channels.now front) }
    ensures asked { OnOk result (lists.old.place ≤ front
        → WereAsked lists.old lists.new channels.now front) }
    ensures behind { OnOk result (front < lists.old.place → AreAsBefore lists.old lists.new) }
    ensures from { lists.old.place ≤ lists.new.place }
    ensures stands { StandsFor lists.new log.old.entries }
    ensures most { lists.new.most ≡ lists.old.most }
    ensures log { log.new.entries ≡ log.old.entries }
    ensures reads { log.new.reads ≤ log.old.reads
        + look_reads lists.old log.old.entries channels.now start front }
{
    let found = lists.ask(index, log, channels, front)?;
    let sequences = found.sequences.as_slice();
    let segment = segment_with(alloc, viewer, index, log, sequences, start, front)?;
    Ok(Gathered {
        segment,
        refills: found.refills,
    })
}

/// The rows of a look by what was gathered for it.
fn rows_by(
    alloc: Global,
    viewer: &Viewer<'_>,
    gathered: Gathered<'_>,
    since: &Key,
    front: u64,
    options: &Options,
) -> Result<Advanced, Memory>
    requires to_search { AreToSearch viewer.now.periods.now }
    requires filter { options.now.filter ≡ viewer.now.filter.now }
    ensures rows { IfOk result (λ advanced. (entries : List Entry) → front ≤ length entries
        → AreKnown viewer.now (switches.first_of since.now) (past entries front)
        gathered.entry.segment.documents.items
        → HaveAll (past entries front) viewer.now.user.now since.now options.now
        gathered.entry.segment.documents.items
        → advanced.rows ≡ feed (past entries front) viewer.now.user.now since.now options.now) }
    ensures refills { IfOk result (λ advanced. advanced.refills ≡ gathered.entry.refills) }
{
    let Gathered { segment, refills } = gathered;
    let documents = segment.documents.as_slice();
    let start = first_of(since);
    let rows = rows_of_documents(alloc, viewer, documents, start, front, since, options);
    drop(segment);
    Ok(Advanced {
        rows: rows?,
        refills,
    })
}

/// The rows of a feed, given the channels that its user gained or lost in the segment of the key.
fn look_at(
    alloc: Global,
    lists: &mut Lists,
    index: &LogIndex,
    log: &mut LogReads<'_>,
    periods: &[Period],
    channels: &[ChannelName],
    user: &Name,
    filter: &Filter<'_>,
    since: &Key,
    front: u64,
    options: &Options,
) -> Result<Advanced, Memory>
    requires within { front ≤ length log.old.entries }
    requires first { switches.first_of since.now ≤ front }
    requires stands { StandsFor lists.old log.old.entries }
    requires index { IndexesTo index.now log.old.entries front }
    requires periods { (last : ℕ) × (front ≤ last)
        × ArePeriods periods.now (has_at log.old.entries user.now) last }
    requires in_order { AreInOrder periods.now }
    requires filter { options.now.filter ≡ filter.now }
    requires switches { AreSwitches channels.now
        log.old.entries user.now (switches.first_of since.now) front }
    ensures rows { IfOk result (λ advanced. advanced.rows ≡ feed
        (past log.old.entries front) user.now since.now options.now) }
    ensures refills { IfOk result (λ advanced. advanced.refills
        ≡ refills_at lists.old channels.now front) }
    ensures asked { OnOk result (lists.old.place ≤ front
        → WereAsked lists.old lists.new channels.now front) }
    ensures behind { OnOk result (front < lists.old.place → AreAsBefore lists.old lists.new) }
    ensures from { lists.old.place ≤ lists.new.place }
    ensures stands { StandsFor lists.new log.old.entries }
    ensures most { lists.new.most ≡ lists.old.most }
    ensures log { log.new.entries ≡ log.old.entries }
    ensures reads { log.new.reads ≤ log.old.reads + look_reads
        lists.old log.old.entries channels.now (switches.first_of since.now) front }
{
    known();
    let viewer = viewer_of(user, filter, periods);
    let start = first_of(since);
    let gathered = gather(alloc, lists, &viewer, index, log, channels, start, front)?;
    rows_by(alloc, &viewer, gathered, since, front, options)
}

/// The rows of a feed by the periods of its user's channels up to a place at the front or behind it, and a place from which on
/// these channels are the same.
fn look(
    alloc: Global,
    lists: &mut Lists,
    index: &LogIndex,
    log: &mut LogReads<'_>,
    periods: &[Period],
    changed: u64,
    user: &Name,
    since: &Key,
    front: u64,
    options: &Options,
) -> Result<Advanced, Memory>
    requires within { front ≤ length log.old.entries }
    requires first { switches.first_of since.now ≤ front }
    requires stands { StandsFor lists.old log.old.entries }
    requires index { IndexesTo index.now log.old.entries front }
    requires periods { (last : ℕ) × (front ≤ last)
        × ArePeriods periods.now (has_at log.old.entries user.now) last }
    requires in_order { AreInOrder periods.now }
    requires steady { (last : ℕ) × (front ≤ last)
        × IsSteady log.old.entries user.now changed last }
    ensures rows { IfOk result (λ advanced. advanced.rows ≡ feed
        (past log.old.entries front) user.now since.now options.now) }
    ensures switches { OnOk result ((channels : List (List ℕ)) × AreSwitches channels
        log.old.entries user.now (switches.first_of since.now) front) }
    ensures refills { IfOk result (λ advanced. (channels : List (List ℕ)) → AreSwitches channels
        log.old.entries user.now (switches.first_of since.now) front
        → advanced.refills ≡ refills_at lists.old channels front) }
    ensures asked { OnOk result (lists.old.place ≤ front → (channels : List (List ℕ))
        → AreSwitches channels log.old.entries user.now (switches.first_of since.now) front
        → WereAsked lists.old lists.new channels front) }
    ensures behind { OnOk result (front < lists.old.place → AreAsBefore lists.old lists.new) }
    ensures from { lists.old.place ≤ lists.new.place }
    ensures stands { StandsFor lists.new log.old.entries }
    ensures most { lists.new.most ≡ lists.old.most }
    ensures log { log.new.entries ≡ log.old.entries }
    ensures reads { (channels : List (List ℕ)) → AreSwitches channels
        log.old.entries user.now (switches.first_of since.now) front
        → log.new.reads ≤ log.old.reads + look_reads
        lists.old log.old.entries channels (switches.first_of since.now) front }
{
    let channels = switched_since(alloc, periods, changed, first_of(since), front)?;
    let filter = Filter::new(alloc, &options.filter)?;
    look_at(
        alloc,
        lists,
        index,
        log,
        periods,
        channels.as_slice(),
        user,
        &filter,
        since,
        front,
        options,
    )
}

/// The rows of a feed by a history of grants that has the front, with the periods that are kept of its user.
fn look_by(
    alloc: Global,
    lists: &mut Lists,
    kept: &mut KeptPeriods,
    grants: &GrantHistory,
    log: &mut LogReads<'_>,
    user: &Name,
    since: &Key,
    front: u64,
    options: &Options,
) -> Result<Advanced, Memory>
    requires within { front ≤ length log.old.entries }
    requires first { switches.first_of since.now ≤ front }
    requires stands { StandsFor lists.old log.old.entries }
    requires kept { All (ArePeriodsOf log.old.entries) (of_users kept.old.entries) }
    requires grants { grants_at.StandsFor grants.now log.old.entries }
    requires applied { front ≤ grants.now.applied }
    ensures rows { IfOk result (λ advanced. advanced.rows ≡ feed
        (past log.old.entries front) user.now since.now options.now) }
    ensures switches { OnOk result ((channels : List (List ℕ)) × AreSwitches channels
        log.old.entries user.now (switches.first_of since.now) front) }
    ensures refills { IfOk result (λ advanced. (channels : List (List ℕ)) → AreSwitches channels
        log.old.entries user.now (switches.first_of since.now) front
        → advanced.refills ≡ refills_at lists.old channels front) }
    ensures asked { OnOk result (lists.old.place ≤ front → (channels : List (List ℕ))
        → AreSwitches channels log.old.entries user.now (switches.first_of since.now) front
        → WereAsked lists.old lists.new channels front) }
    ensures behind { OnOk result (front < lists.old.place → AreAsBefore lists.old lists.new) }
    ensures from { lists.old.place ≤ lists.new.place }
    ensures stands { StandsFor lists.new log.old.entries }
    ensures kept { All (ArePeriodsOf log.old.entries) (of_users kept.new.entries) }
    ensures most { lists.new.most ≡ lists.old.most }
    ensures log { log.new.entries ≡ log.old.entries }
    ensures reads { (channels : List (List ℕ)) → AreSwitches channels
        log.old.entries user.now (switches.first_of since.now) front
        → log.new.reads ≤ log.old.reads + look_reads
        lists.old log.old.entries channels (switches.first_of since.now) front }
{
    let changed = grants.changed(user);
    let taken = take_periods(kept, grants, user, changed)?;
    let periods = taken.periods.as_slice();
    let index = grants.index();
    let advanced = look(
        alloc, lists, index, log, periods, changed, user, since, front, options,
    );
    keep_periods(alloc, kept, user, taken);
    advanced
}

/// The same, once the history has applied the log up to the front.
fn apply_and_look(
    alloc: Global,
    lists: &mut Lists,
    kept: &mut KeptPeriods,
    history: &mut GrantHistory,
    log: &mut LogReads<'_>,
    user: &Name,
    since: &Key,
    front: u64,
    options: &Options,
) -> Result<Advanced, Memory>
    requires within { front ≤ length log.old.entries }
    requires first { switches.first_of since.now ≤ front }
    requires stands { StandsFor lists.old log.old.entries }
    requires kept { All (ArePeriodsOf log.old.entries) (of_users kept.old.entries) }
    requires grants { grants_at.StandsFor history.old log.old.entries }
    ensures rows { IfOk result (λ advanced. advanced.rows ≡ feed
        (past log.old.entries front) user.now since.now options.now) }
    ensures switches { OnOk result ((channels : List (List ℕ)) × AreSwitches channels
        log.old.entries user.now (switches.first_of since.now) front) }
    ensures refills { IfOk result (λ advanced. (channels : List (List ℕ)) → AreSwitches channels
        log.old.entries user.now (switches.first_of since.now) front
        → advanced.refills ≡ refills_at lists.old channels front) }
    ensures asked { OnOk result (lists.old.place ≤ front → (channels : List (List ℕ))
        → AreSwitches channels log.old.entries user.now (switches.first_of since.now) front
        → WereAsked lists.old lists.new channels front) }
    ensures behind { OnOk result (front < lists.old.place → AreAsBefore lists.old lists.new) }
    ensures from { lists.old.place ≤ lists.new.place }
    ensures stands { StandsFor lists.new log.old.entries }
    ensures kept { All (ArePeriodsOf log.old.entries) (of_users kept.new.entries) }
    ensures grants { grants_at.StandsFor history.new log.old.entries }
    ensures applied { OnOk result (history.new.applied ≡ max history.old.applied front) }
    ensures applied_from { history.old.applied ≤ history.new.applied }
    ensures most { lists.new.most ≡ lists.old.most }
    ensures log { log.new.entries ≡ log.old.entries }
    ensures reads { (channels : List (List ℕ)) → AreSwitches channels
        log.old.entries user.now (switches.first_of since.now) front
        → log.new.reads ≤ log.old.reads + advance_reads lists.old
        history.old.applied log.old.entries channels (switches.first_of since.now) front }
{
    history.apply(log, front)?;
    look_by(
        alloc, lists, kept, history, log, user, since, front, options,
    )
}

impl Feeds {
    /// Of nothing: lists of at most so many channels.
    pub fn new(alloc: Global, channels: u64) -> Result<Feeds, Memory>
        requires { 0 < channels }
        ensures empty { IfOk result (λ feeds. AreEmpty feeds.lists channels) }
        ensures applied { IfOk result (λ feeds. feeds.history.applied ≡ 0) }
        ensures stands { IfOk result (λ feeds. (entries : List Entry)
            → FeedsStandFor feeds entries) }
    {
        let most = NonZeroUsize::new(channels as usize).unwrap();
        let periods = LruCache::sparse(alloc, most)?;
        let lists = Lists::new(alloc, channels)?;
        Ok(Feeds {
            alloc,
            lists,
            history: GrantHistory::new(alloc),
            periods,
        })
    }

    /// Feeds that stand for a log stand for each log that extends it.
    pub(crate) fn extended(&self)
        ensures { (earlier later : List Entry) → FeedsStandFor self.now earlier
            → Extends earlier later → FeedsStandFor self.now later }
    {
        sg_history::laws::later();
        grant_history::laws::extended(&self.history);
        channel_cache::laws::extended(&self.lists);
    }

    /// The rows of a user's changes feed over the first `front` entries of a log after a since key, by a history of its grants
    /// that has the front. The channels that the user gained or lost since the key are asked for at the front. Out of memory no
    /// list is kept. A key past the front reads nothing.
    pub fn advance_by(
        &mut self,
        grants: &GrantHistory,
        log: &mut LogReads<'_>,
        user: &Name,
        since: &Key,
        front: u64,
        options: &Options,
    ) -> Result<Advanced, Memory>
        requires within { front ≤ length log.old.entries }
        requires stands { FeedsStandFor self.old log.old.entries }
        requires grants { grants_at.StandsFor grants.now log.old.entries }
        requires applied { front ≤ grants.now.applied }
        ensures rows { IfOk result (λ advanced. advanced.rows ≡ feed
            (past log.old.entries front) user.now since.now options.now) }
        ensures switches { OnOk result ((channels : List (List ℕ)) × AreSwitches channels
            log.old.entries user.now (switches.first_of since.now) front) }
        ensures refills { IfOk result (λ advanced. (channels : List (List ℕ))
            → AreSwitches channels log.old.entries user.now (switches.first_of since.now) front
            → advanced.refills ≡ refills_at self.old.lists channels front) }
        ensures asked { OnOk result (self.old.lists.place ≤ front → (channels : List (List ℕ))
            → AreSwitches channels log.old.entries user.now (switches.first_of since.now) front
            → switches.first_of since.now ≤ front
            → WereAsked self.old.lists self.new.lists channels front) }
        ensures behind { OnOk result (front < self.old.lists.place
            → AreAsBefore self.old.lists self.new.lists) }
        ensures from { self.old.lists.place ≤ self.new.lists.place }
        ensures none { OnErr result (asked self.new.lists ≡ []) }
        ensures past { front < switches.first_of since.now → self.new ≡ self.old }
        ensures unread { front < switches.first_of since.now → log.new.reads ≡ log.old.reads }
        ensures history { self.new.history ≡ self.old.history }
        ensures stands { FeedsStandFor self.new log.old.entries }
        ensures most { self.new.lists.most ≡ self.old.lists.most }
        ensures log { log.new.entries ≡ log.old.entries }
        ensures reads { (channels : List (List ℕ)) → AreSwitches channels
            log.old.entries user.now (switches.first_of since.now) front
            → log.new.reads ≤ log.old.reads + look_reads
            self.old.lists log.old.entries channels (switches.first_of since.now) front }
    {
        order();
        if is_past(since, front) {
            return Ok(nothing(self.alloc));
        }
        let advanced = look_by(
            self.alloc,
            &mut self.lists,
            &mut self.periods,
            grants,
            log,
            user,
            since,
            front,
            options,
        );
        if advanced.is_err() {
            self.lists.forget();
        }
        advanced
    }

    /// The same by a history of its own, which applies the log up to the front first.
    pub fn advance(
        &mut self,
        log: &mut LogReads<'_>,
        user: &Name,
        since: &Key,
        front: u64,
        options: &Options,
    ) -> Result<Advanced, Memory>
        requires within { front ≤ length log.old.entries }
        requires stands { FeedsStandFor self.old log.old.entries }
        ensures rows { IfOk result (λ advanced. advanced.rows ≡ feed
            (past log.old.entries front) user.now since.now options.now) }
        ensures switches { OnOk result ((channels : List (List ℕ)) × AreSwitches channels
            log.old.entries user.now (switches.first_of since.now) front) }
        ensures refills { IfOk result (λ advanced. (channels : List (List ℕ))
            → AreSwitches channels log.old.entries user.now (switches.first_of since.now) front
            → advanced.refills ≡ refills_at self.old.lists channels front) }
        ensures asked { OnOk result (self.old.lists.place ≤ front → (channels : List (List ℕ))
            → AreSwitches channels log.old.entries user.now (switches.first_of since.now) front
            → switches.first_of since.now ≤ front
            → WereAsked self.old.lists self.new.lists channels front) }
        ensures behind { OnOk result (front < self.old.lists.place
            → AreAsBefore self.old.lists self.new.lists) }
        ensures from { self.old.lists.place ≤ self.new.lists.place }
        ensures none { OnErr result (asked self.new.lists ≡ []) }
        ensures past { front < switches.first_of since.now → self.new ≡ self.old }
        ensures unread { front < switches.first_of since.now → log.new.reads ≡ log.old.reads }
        ensures applied { OnOk result (switches.first_of since.now ≤ front
            → self.new.history.applied ≡ max self.old.history.applied front) }
        ensures applied_from { self.old.history.applied ≤ self.new.history.applied }
        ensures stands { FeedsStandFor self.new log.old.entries }
        ensures most { self.new.lists.most ≡ self.old.lists.most }
        ensures log { log.new.entries ≡ log.old.entries }
        ensures reads { (channels : List (List ℕ)) → AreSwitches channels
            log.old.entries user.now (switches.first_of since.now) front
            → log.new.reads ≤ log.old.reads + advance_reads self.old.lists
            self.old.history.applied log.old.entries channels
            (switches.first_of since.now) front }
    {
        order();
        if is_past(since, front) {
            return Ok(nothing(self.alloc));
        }
        let advanced = apply_and_look(
            self.alloc,
            &mut self.lists,
            &mut self.periods,
            &mut self.history,
            log,
            user,
            since,
            front,
            options,
        );
        if advanced.is_err() {
            self.lists.forget();
        }
        advanced
    }
}
