//! The laws of documents: theorems over the definitions that the contracts of the code use.

ghost use Rattle.std.specs.Prelude.{◌≡◌, true};
ghost use Rattle.document.specs.Theorems.{Grammatical, Conservation, Allocation, ReplaysWithin, Replays, Faithful};
ghost use Rattle.document.specs.Examples.{examples};

/// A law that is proved. A function below answers each, and its contract is the law.
#[derive(Clone, Copy, PartialEq, Eq, Debug)]
pub enum Law {
    Grammar,
    Conservation,
    Allocation,
    Replay,
    Faithfulness,
    Examples,
}

/// The open places take exactly the beginnings of documents, and are done exactly at documents.
// Stays: a function for each law, since the contract of each is another law.
pub fn grammar() -> Law
    ensures answer { result ≡ Law.Grammar }
    ensures law { Grammatical }
{
    Law::Grammar
}

/// Each node of an accepted document has as many values as its parent's values demand of it, and the root one.
pub fn conservation() -> Law
    ensures answer { result ≡ Law.Conservation }
    ensures law { Conservation }
{
    Law::Conservation
}

/// Node records are as many as the table is charged for, no node has two, and each that has a value or at which one is next has one.
pub fn allocation() -> Law
    ensures answer { result ≡ Law.Allocation }
    ensures law { Allocation }
{
    Law::Allocation
}

/// A reader over an accepted document's bytes hears its calls, over every column kind, and finishes; bytes after the document are left.
pub fn replay() -> Law
    ensures answer { result ≡ Law.Replay }
    ensures within { ReplaysWithin }
    ensures finish { Replays }
{
    Law::Replay
}

/// Two accepted documents that are asked alike have the same bytes exactly when they are equal, over every column kind.
pub fn faithfulness() -> Law
    ensures answer { result ≡ Law.Faithfulness }
    ensures law { Faithful }
{
    Law::Faithfulness
}

/// The worked examples of docs/FORMAT.md and docs/REFUSALS.md, computed from the definitions.
pub fn worked_examples() -> Law
    ensures answer { result ≡ Law.Examples }
    ensures law { examples ≡ true }
{
    Law::Examples
}
