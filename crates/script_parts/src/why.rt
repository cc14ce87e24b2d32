// Why a record is refused.
ghost use Rattle.std.specs.Prelude.{◌≡◌};
ghost use Rattle.script_parts.specs.Why.{why_name};
ghost use Rattle.script_parts.specs.declared.why.Refusal.TheVariants.{NoMemory};

use std::alloc::{AllocError, AllocFailed};
use thiserror::Error;

/// The reasons for which a record is refused, in the order in which they are tried (docs/FORMATS.md, "Refusals").
#[derive(Clone, Copy, Debug, PartialEq, Eq, Error)]
pub enum Why {
    /// The input has more than 8,388,608 bytes.
    #[error("the input has more than 8,388,608 bytes")]
    TooLong,
    /// The first field isn't the word of a row.
    #[error("the first field is none of the row words")]
    UnknownRow,
    /// The row has another number of fields.
    #[error("the number of fields isn't the row's")]
    WrongFields,
    /// The first record isn't a `nodes` row, or there is no record.
    #[error("the first record isn't a `nodes` row")]
    NodesFirst,
    /// A later record is a `nodes` row.
    #[error("a later record is a `nodes` row")]
    NodesTwice,
    /// A number isn't written as one.
    #[error("a number isn't written as one")]
    BadNumber,
    /// A number is outside its range.
    #[error("a number is outside its range")]
    OutOfRange,
    /// A name isn't 1 to 32 ASCII letters, digits, `_`, `-` or `.`.
    #[error("a name isn't 1 to 32 ASCII letters, digits, `_`, `-` or `.`")]
    BadName,
    /// Another item, or another tree, has the name.
    #[error("another item, or another tree, has the name")]
    NameTaken,
    /// No item of an earlier record has the name.
    #[error("no item of an earlier record has the name")]
    UnknownItem,
    /// No tree is begun.
    #[error("no tree is begun")]
    NoTree,
    /// The parent isn't an earlier subtransaction of the tree.
    #[error("the parent is no earlier subtransaction of the tree")]
    BadParent,
    /// The item isn't at the subtransaction's node.
    #[error("the item isn't at the subtransaction's node")]
    WrongNode,
    /// There is no such kind, or the operation doesn't fit the tree and the item.
    #[error("the kind is none, or the operation doesn't fit the tree and the item")]
    WrongKind,
    /// There would be more of something than a limit allows.
    #[error("a limit on a number of things would be passed")]
    TooMany,
    /// The item's magnitudes would add up to more than the form allows.
    #[error("the item's magnitudes would add up to more than the form allows")]
    TooMuch,
    /// A strict tree already has an operation on the item.
    #[error("a strict tree already has an operation on the item")]
    ItemTwice,
    /// The record may only come in the first part, of a script that comes part by part.
    #[error("the record comes too late, behind the first part")]
    TooLate,
}

impl Why {
    /// The reason's name, as a refusal prints it.
    pub fn name(&self) -> &'static str
        ensures { result.now ≡ why_name self.now }
    {
        match self {
            Why::TooLong => "TooLong",
            Why::UnknownRow => "UnknownRow",
            Why::WrongFields => "WrongFields",
            Why::NodesFirst => "NodesFirst",
            Why::NodesTwice => "NodesTwice",
            Why::BadNumber => "BadNumber",
            Why::OutOfRange => "OutOfRange",
            Why::BadName => "BadName",
            Why::NameTaken => "NameTaken",
            Why::UnknownItem => "UnknownItem",
            Why::NoTree => "NoTree",
            Why::BadParent => "BadParent",
            Why::WrongNode => "WrongNode",
            Why::WrongKind => "WrongKind",
            Why::TooMany => "TooMany",
            Why::TooMuch => "TooMuch",
            Why::ItemTwice => "ItemTwice",
            Why::TooLate => "TooLate",
        }
    }
}

/// A record was refused, or memory ran out.
#[derive(Clone, Copy, Debug, PartialEq, Eq, Error)]
pub enum Refusal {
    /// The first reason that holds.
    #[error("{0}")]
    Why(Why),
    /// Out of memory.
    #[error("out of memory")]
    NoMemory,
}

impl From<tv_base::NoMemory> for Refusal {
    ghost from_gives = { λ _ e. e ≡ NoMemory };

    fn from(_: tv_base::NoMemory) -> Self {
        Refusal::NoMemory
    }
}

impl From<AllocError> for Refusal {
    ghost from_gives = { λ _ e. e ≡ NoMemory };

    fn from(_: AllocError) -> Self {
        Refusal::NoMemory
    }
}

impl<T: Drop> From<AllocFailed<T>> for Refusal {
    ghost from_gives = { λ _ e. e ≡ NoMemory };

    fn from(_: AllocFailed<T>) -> Self {
        Refusal::NoMemory
    }
}

impl<T: Drop> From<(tv_base::NoMemory, T)> for Refusal {
    ghost from_gives = { λ _ e. e ≡ NoMemory };

    fn from(_: (tv_base::NoMemory, T)) -> Self {
        Refusal::NoMemory
    }
}
