//! What ends a run before its end.

use itoa::Buffer;
use json_doc::DocText;
use std::alloc::{AllocError, Global};
use sync_tokens::Place;

/// How an operation fails.
#[derive(Clone, Copy, Debug, PartialEq, Eq)]
pub enum FaultKind {
    /// A value of another kind was wanted.
    TypeFault,
    /// A member of null or undefined.
    NullMember,
    /// An integer outside plus or minus 9007199254740991.
    Range,
    /// An argument that holds no texts.
    Argument,
    /// A text that is no name of its kind.
    BadName,
    /// A text, a list or the effects are too large.
    Size,
    /// A value was thrown that refuses nothing.
    Thrown,
}

/// By which rule a revision is denied. The text of `Forbidden` is the one that was thrown.
#[derive(Debug, Drop)]
pub enum RuleKind {
    Forbidden(DocText),
    User,
    Role,
    Access,
    Admin,
    Fault(FaultKind),
    /// No visit was left.
    Fuel,
}

/// A rule and the place of the node that denies by it.
#[derive(Debug, Drop)]
pub struct Rule {
    pub kind: RuleKind,
    pub place: Place,
}

/// What ends a run. `Memory` says that memory ran out, which may come at any place.
#[derive(Debug, Drop)]
pub enum Stop {
    Deny(Rule),
    Memory,
}

impl Stop {
    ghost use Rattle.std.specs.Prelude.{◌≡◌};
    ghost use Rattle.sync_values.specs.Found as spec;

    /// A fault of this kind at this place.
    pub fn fault(kind: FaultKind, place: Place) -> Stop
        ensures { result ≡ spec.fault kind place }
    {
        Stop::Deny(Rule {
            kind: RuleKind::Fault(kind),
            place,
        })
    }
}

impl FaultKind {
    ghost use Rattle.std.specs.Prelude.{◌≡◌};
    ghost use Rattle.sync_values.specs.Texts as spec;

    fn name(self) -> &'static str
        ensures { result.now ≡ spec.fault_name self }
    {
        match self {
            FaultKind::TypeFault => "type",
            FaultKind::NullMember => "null member",
            FaultKind::Range => "range",
            FaultKind::Argument => "argument",
            FaultKind::BadName => "bad name",
            FaultKind::Size => "size",
            FaultKind::Thrown => "thrown",
        }
    }
}

impl RuleKind {
    ghost use Rattle.std.specs.Prelude.{◌≡◌, ◌++◌, OnOk};
    ghost use Rattle.sync_values.specs.Texts as spec;

    fn name(&self) -> &'static str
        ensures { result.now ≡ spec.rule_name self.now }
    {
        match self {
            RuleKind::Forbidden(_) => "forbidden",
            RuleKind::User => "user",
            RuleKind::Role => "role",
            RuleKind::Access => "access",
            RuleKind::Admin => "admin",
            RuleKind::Fuel => "fuel",
            RuleKind::Fault(kind) => kind.name(),
        }
    }

    /// Behind `forbidden` `: ` and the text that was thrown.
    fn push_said(&self, text: &mut DocText) -> Result<(), AllocError>
        ensures { OnOk result (text.new ≡ text.old ++ spec.thrown_text self.now) }
    {
        match self {
            RuleKind::Forbidden(said) => {
                text.push_str(": ")?;
                text.push_str(said.as_str())
            }
            _ => Ok(()),
        }
    }
}

impl Rule {
    ghost use Rattle.std.specs.Prelude.{◌≡◌, ◌++◌, codes, IfOk, OnOk};
    ghost use Rattle.sync_values.specs.Texts as spec;

    /// The line, `:` and the column.
    fn push_place(&self, text: &mut DocText) -> Result<(), AllocError>
        ensures { OnOk result (text.new ≡ text.old ++ spec.place_text self.now.place) }
    {
        let mut line = Buffer::new();
        let mut column = Buffer::new();
        text.push_str(line.format(self.place.line))?;
        text.push_str(":")?;
        text.push_str(column.format(self.place.column))
    }

    /// What stands behind the rule's name.
    fn push_behind(&self, text: &mut DocText) -> Result<(), AllocError>
        ensures { OnOk result (text.new ≡ text.old ++ codes " at "
            ++ spec.place_text self.now.place ++ spec.thrown_text self.now.kind) }
    {
        text.push_str(" at ")?;
        self.push_place(text)?;
        self.kind.push_said(text)
    }

    /// The rule's name, ` at `, the line, `:` and the column; behind `forbidden` also `: ` and the
    /// text.
    pub fn text(&self, alloc: Global) -> Result<DocText, AllocError>
        ensures { IfOk result (λ text. text ≡ spec.rule_text self.now) }
    {
        let mut text = DocText::from_str(alloc, self.kind.name())?;
        match self.push_behind(&mut text) {
            Ok(()) => Ok(text),
            Err(error) => {
                drop(text);
                Err(error)
            }
        }
    }
}

impl From<AllocError> for Stop {
    ghost use Rattle.std.specs.Prelude.{◌≡◌};
    ghost use Rattle.sync_values.specs.declared.fault.Stop.{Stop};
    ghost use Rattle.sync_values.specs.declared.fault.Stop.TheVariants.{Memory};

    ghost from_gives = { λ _ stop. stop ≡ Memory };

    fn from(_error: AllocError) -> Stop {
        Stop::Memory
    }
}
