//! Does work of histories, gates and the sync language, so that what it takes can be measured from outside. The first word is the job.
//! `draw`, `turn` and `lock` take how many threads and how often; `set` and `get` besides how many clients have checkpoints for each
//! thread, and `keep` how many bytes they have and how many there are. All others take a file: `entries`, `apply`, `channels`, `roles` and
//! `periods` a journal and how often, `look` too; `list` besides two asks for channels, `CHANNELS@PLACE CHANNELS@PLACE`; `propose`, `pull`,
//! `lose`, `filter` and `names` a journal and how many; `extend`, `repeat`, `deny`, `offer` and `bodies` besides a leaf of its document `d`;
//! `share`, `share_costly`, `wait` and `share_looks` besides how many threads; `follow`, `follow_granting` and `advance` how many users, and
//! `gain` none; `parse`, `print`, `resolve` and `fault` a function and how often; `judge`,
//! `judge_user`, `judge_change` and `judge_both` besides a document, `member` the name of a member, how often and a document, and
//! `plain_channels`, `plain_count` and `plain_pass` any file, how often and a document.
#![tactic(auto)]

mod checkpoints;
mod feeds;
mod functions;
mod grants;
mod grounds;
mod judging;
mod lists;
mod passes;
mod sharing;
mod stop;
mod threads;
mod trees;

use feeds::Looked;
use functions::told;
use sg_outside::{Bytes, Files, RealFiles};
use std::alloc::{AllocError, Global};
use std::sync::Wait;
use std::thread::Threads;
use std::time::Clock;
use std::{env, io};
use stop::{Stop, load};

/// The job, what it takes, how often it is done, and a second file, a leaf, or a number.
#[derive(Drop)]
struct Asked {
    job: String,
    of: String,
    count: u64,
    document: String,
}

fn text_of(alloc: Global, count: u64) -> Result<String, Stop> {
    Ok(format!(in alloc; "{count}")?)
}

/// The number that a word is; 1 where it is none.
fn number_of(word: &str) -> u64 {
    word.parse::<u64>().unwrap_or(1)
}

/// The count as one of the sync language's jobs, which make at most so many.
fn few(count: u64) -> u32 {
    u32::try_from(count).unwrap_or(u32::MAX)
}

/// What is counted by a text and a document.
fn worked<F: Files>(
    alloc: Global,
    files: &mut F,
    asked: &Asked,
    text: &str,
) -> Result<String, Stop> {
    let document = load(alloc, files, asked.document.as_str())?;
    let job = asked.job.as_str();
    let found = judging::job(alloc, job, text, document.as_slice(), few(asked.count))?;
    text_of(alloc, u64::from(found))
}

/// How many judgements of a document accepted in two threads.
fn judged_by_two<R: Threads + Sync, F: Files>(
    rt: &R,
    alloc: Global,
    files: &mut F,
    asked: &Asked,
) -> Result<String, Stop> {
    let function = load(alloc, files, asked.of.as_str())?;
    let document = load(alloc, files, asked.document.as_str())?;
    let Ok(text) = std::str::from_utf8(function.as_slice()) else {
        return Err(Stop::Text);
    };
    let count = few(asked.count);
    let found = threads::judged_by_two(rt, alloc, text, document.as_slice(), count);
    text_of(alloc, u64::from(found))
}

/// How many revisions are stored that threads propose at grounds of one gate; or how long one is waited for, or a look takes.
fn shared<R: Threads + Wait + Clock + Sync, F: Files>(
    rt: &R,
    alloc: Global,
    files: &mut F,
    asked: &Asked,
) -> Result<String, Stop> {
    let journal = load(alloc, files, asked.of.as_str())?;
    if asked.job.as_str() == "look" {
        let found = sharing::longest_look(rt, alloc, journal, asked.count)?;
        return text_of(alloc, found);
    }
    let threads = number_of(asked.document.as_str());
    let found = sharing::counted(rt, alloc, journal, asked.job.as_str(), threads, asked.count)?;
    text_of(alloc, found)
}

/// How often an ask for channels reads the log, and how many nanoseconds that takes.
fn listed<R: Clock, F: Files>(
    rt: &R,
    alloc: Global,
    files: &mut F,
    asked: &Asked,
) -> Result<String, Stop> {
    let journal = load(alloc, files, asked.of.as_str())?;
    let took = lists::job(rt, alloc, journal, asked.document.as_str(), asked.count)?;
    Ok(format!(in alloc; "{} {}", took.reads, took.nanoseconds)?)
}

fn looked_text(alloc: Global, looked: &Looked) -> Result<String, AllocError> {
    let Looked {
        rows,
        reads,
        most,
        refills,
        nanoseconds,
    } = looked;
    format!(in alloc; "{rows} {reads} {most} {refills} {nanoseconds}")
}

/// What two users' looks find who just gained a channel.
fn gained<R: Clock>(rt: &R, alloc: Global, journal: Bytes) -> Result<String, Stop> {
    let (first, second) = feeds::gain(rt, alloc, journal)?;
    let (first, second) = (looked_text(alloc, &first)?, looked_text(alloc, &second)?);
    Ok(format!(in alloc; "{first} {second}")?)
}

/// What users' looks at the last places of a journal find.
fn advanced<R: Clock>(
    rt: &R,
    alloc: Global,
    journal: Bytes,
    places: u64,
    users: u64,
) -> Result<String, Stop> {
    let looked = feeds::advance(rt, alloc, journal, places, users)?;
    Ok(looked_text(alloc, &looked)?)
}

/// How many rows users' looks after writes have, and what they and the writes take.
fn followed<F: Files>(
    alloc: Global,
    files: &mut F,
    journal: Bytes,
    asked: &Asked,
    users: u64,
) -> Result<String, Stop> {
    let granting = asked.job.as_str() == "follow_granting";
    let found = feeds::follow(alloc, files, journal, granting, asked.count, users)?;
    Ok(format!(in alloc; "{} {}", found.rows, found.nanoseconds)?)
}

/// The most microseconds of a look by threads at one gate, and the nanoseconds of all.
fn looked_by_threads<R: Threads + Wait + Clock + Sync>(
    rt: &R,
    alloc: Global,
    journal: Bytes,
    threads: u64,
    count: u64,
) -> Result<String, Stop> {
    let (longest, all) = sharing::looked(rt, alloc, journal, threads, count)?;
    Ok(format!(in alloc; "{longest} {all}")?)
}

/// What looks for feeds find, and what they take.
fn of_feeds<R: Threads + Wait + Clock + Sync, F: Files>(
    rt: &R,
    alloc: Global,
    files: &mut F,
    asked: &Asked,
) -> Result<String, Stop> {
    let journal = load(alloc, files, asked.of.as_str())?;
    let of = number_of(asked.document.as_str());
    match asked.job.as_str() {
        "gain" => gained(rt, alloc, journal),
        "advance" => advanced(rt, alloc, journal, asked.count, of),
        "share_looks" => looked_by_threads(rt, alloc, journal, of, asked.count),
        _ => followed(alloc, files, journal, asked, of),
    }
}

/// What comes of a function of the sync language.
fn of_function<F: Files>(
    alloc: Global,
    files: &mut F,
    asked: &Asked,
    bytes: &Bytes,
) -> Result<String, Stop> {
    let Ok(text) = std::str::from_utf8(bytes.as_slice()) else {
        return Err(Stop::Text);
    };
    if asked.document.is_empty() {
        return Ok(told(alloc, asked.job.as_str(), text, few(asked.count))?);
    }
    worked(alloc, files, asked, text)
}

/// What a job counts at a document's tree.
fn of_tree(alloc: Global, journal: Bytes, asked: &Asked) -> Result<u64, Stop> {
    let leaf = asked.document.as_str();
    trees::job(alloc, journal, asked.job.as_str(), leaf, few(asked.count))
}

/// What comes of a file.
fn of_file<F: Files>(alloc: Global, files: &mut F, asked: &Asked) -> Result<String, Stop> {
    let bytes = load(alloc, files, asked.of.as_str())?;
    match asked.job.as_str() {
        "entries" | "apply" | "channels" | "roles" | "periods" => {
            let found = grants::job(alloc, bytes, asked.job.as_str(), asked.count)?;
            text_of(alloc, found)
        }
        "propose" | "pull" | "lose" | "filter" | "names" => {
            let found = grounds::job(alloc, bytes, asked.job.as_str(), asked.count)?;
            text_of(alloc, found)
        }
        "extend" | "repeat" | "deny" | "offer" | "bodies" => {
            let found = of_tree(alloc, bytes, asked)?;
            text_of(alloc, found)
        }
        _ => of_function(alloc, files, asked, &bytes),
    }
}

/// What comes of passes through a gate: the words again.
fn of_passes<R: Threads + Wait + Sync>(
    rt: &R,
    alloc: Global,
    asked: &Asked,
) -> Result<String, AllocError> {
    let two = asked.of.as_str() == "2";
    passes::run(rt, alloc, asked.job.as_str(), two, asked.count)?;
    format!(in alloc; "{} {} {}", asked.job, asked.of, asked.count)
}

/// How many checkpoints are set and got.
fn of_checkpoints<R: Threads + Wait + Sync>(
    rt: &R,
    alloc: Global,
    asked: &Asked,
) -> Result<String, Stop> {
    let of = number_of(asked.of.as_str());
    let clients = number_of(asked.document.as_str());
    let found = checkpoints::counted(rt, alloc, asked.job.as_str(), of, asked.count, clients)?;
    text_of(alloc, found)
}

fn run<R: Threads + Wait + Clock + Sync, F: Files>(
    rt: &R,
    alloc: Global,
    files: &mut F,
    asked: &Asked,
) -> Result<String, Stop> {
    match asked.job.as_str() {
        "draw" | "turn" | "lock" => Ok(of_passes(rt, alloc, asked)?),
        "set" | "get" | "keep" => of_checkpoints(rt, alloc, asked),
        "judge_both" => judged_by_two(rt, alloc, files, asked),
        "list" => listed(rt, alloc, files, asked),
        "follow" | "follow_granting" | "advance" | "gain" | "share_looks" => {
            of_feeds(rt, alloc, files, asked)
        }
        "share" | "share_costly" | "wait" | "look" => shared(rt, alloc, files, asked),
        _ => of_file(alloc, files, asked),
    }
}

fn main(rt: HostRuntime) -> io::Result<()> {
    let mut words = env::args(&rt)?;
    let _program = words.next();
    let (Some(job), Some(of)) = (words.next(), words.next()) else {
        return Ok(());
    };
    let count = words
        .next()
        .map_or(0, |word| word.parse::<u64>().unwrap_or(0));
    let document = words.next().unwrap_or(String::new(rt.alloc()));
    let asked = Asked {
        job,
        of,
        count,
        document,
    };
    let mut files = RealFiles::new(&rt);
    match run(&rt, rt.alloc(), &mut files, &asked) {
        Ok(text) => println!(rt; "{text}"),
        Err(stop) => println!(rt; "{stop:?}"),
    }
}
