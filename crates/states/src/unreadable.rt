//! What a reader refuses: bytes that are no state, and questions that do not fit.

use crate::asking::{ask_each, text};
use crate::reading::receive;
use crate::shown::{show_answer, show_questions};
use crate::tables::reader_tables;
use column::flat::Flat;
use column::interface::Column;
use column::short::Short;
use column::steps::Steps;
use de::reader::Reader;
use de::reader::questions::Parts;
use document::questions::Question;
use document::scalars::Scalar;
use printing::Hex;
use std::{fmt, io};

/// Anna alone, after she discarded a card, under flat columns.
const ANNA: [u8; 18] = [
    1, 4, b'A', b'n', b'n', b'a', 2, 3, 12, 3, 3, 7, 12, 1, 0, 1, 1, 2,
];

/// The node records that this state takes, and the unused one.
const NODES: usize = 10;

/// The slots that it takes, and the unused one.
const SLOTS: usize = 15;

/// Bytes, and what is wrong with them.
#[derive(Clone, Copy)]
struct Damage {
    title: &'static str,
    bytes: &'static [u8],
}

impl fmt::Display for Damage {
    fn fmt<W: fmt::Write>(&self, f: &mut fmt::Formatter<W>) -> fmt::Result {
        let title = self.title;
        let bytes = Hex(self.bytes);
        write!(f, "{title}, {bytes}")
    }
}

/// The same, with the questions that are asked where it is no state.
#[derive(Clone, Copy)]
struct Talk {
    damage: Damage,
    questions: &'static [Question],
}

/// The short list of the incident, as a writer would send it that does not count: a map that announces three grants, with two cards, two indices and two seats.
/// The third card is then read from the indices, and the indices from the rest and the seats, of which none is left.
const TWO_OF_THREE: Damage = Damage {
    title: "three grants announced, two sent",
    bytes: &[1, 4, b'A', b'n', b'n', b'a', 2, 3, 12, 3, 3, 12, 1, 1, 1, 2],
};

/// States under flat columns.
const FLAT_STATES: [Damage; 5] = [
    TWO_OF_THREE,
    Damage {
        title: "a name that lost its last byte",
        bytes: &[1, 3, b'Z', b'o', 0xc3, 0, 0],
    },
    Damage {
        title: "an option's index of 2",
        bytes: &[
            1, 4, b'A', b'n', b'n', b'a', 2, 3, 12, 3, 3, 7, 12, 1, 2, 1, 1, 2,
        ],
    },
    Damage {
        title: "the last byte lost",
        bytes: &[
            1, 4, b'A', b'n', b'n', b'a', 2, 3, 12, 3, 3, 7, 12, 1, 0, 1, 1,
        ],
    },
    Damage {
        title: "a byte too many",
        bytes: &[
            1, 4, b'A', b'n', b'n', b'a', 2, 3, 12, 3, 3, 7, 12, 1, 0, 1, 1, 2, 0,
        ],
    },
];

/// A state under short columns, with the card 300.
const SHORT_STATE: Damage = Damage {
    title: "under short, a card above 255",
    bytes: &[1, 4, b'A', b'n', b'n', b'a', 1, 0xac, 2, 0],
};

/// States under steps over flat.
const STEPS_STATES: [Damage; 2] = [
    Damage {
        title: "under steps over flat, the last byte lost",
        bytes: &[
            1, 4, b'A', b'n', b'n', b'a', 2, 3, 9, 3, 3, 4, 5, 1, 255, 1, 1,
        ],
    },
    Damage {
        title: "under steps over flat, two letters of a name lost",
        bytes: &[1, 4, b'A', b'n'],
    },
];

/// The length of a list, and its first bit.
const BIT_QUESTIONS: [Question; 2] = [
    Question::Seq { no_size: false },
    Question::Scalar(Scalar::Bool),
];

/// A list of two bits, of which the second is 2.
const BITS: Talk = Talk {
    damage: Damage {
        title: "a bit of 2",
        bytes: &[2, 1, 2],
    },
    questions: &BIT_QUESTIONS,
};

/// The same under steps over flat: the differences are 1 and 2.
const BIT_STEPS: Talk = Talk {
    damage: Damage {
        title: "under steps over flat, a bit of 2",
        bytes: &[2, 1, 2],
    },
    questions: &BIT_QUESTIONS,
};

/// Other documents under flat columns.
const TALKS: [Talk; 3] = [
    Talk {
        damage: Damage {
            title: "a bit where a number of eight bits was read",
            bytes: &[2, 7, 1],
        },
        questions: &[
            Question::Seq { no_size: false },
            Question::Scalar(Scalar::U8),
            Question::Scalar(Scalar::Bool),
        ],
    },
    Talk {
        damage: Damage {
            title: "65537 pairs whose keys take no memory",
            bytes: &[255, 1, 0, 1, 0, 0, 0, 0, 0],
        },
        questions: &[Question::Map { no_size: true }],
    },
    Talk {
        damage: Damage {
            title: "two lists of 1 and of 2251799813685246 elements",
            bytes: &[2, 1, 255, 254, 255, 255, 255, 255, 255, 7, 0],
        },
        questions: &[
            Question::Seq { no_size: false },
            Question::Seq { no_size: false },
        ],
    },
];

/// Reads bytes as a state, and prints what was answered.
fn show_state<T: fmt::Display + Drop, C: Column>(
    rt: &HostRuntime,
    title: T,
    bytes: &[u8],
    kind: &C,
    tables: Parts,
) -> io::Result<Parts> {
    let (state, tables) = receive(rt.alloc(), tables, bytes, kind);
    show_answer(rt, title, state.map(|_| ()))?;
    Ok(tables)
}

/// Asks for another damaged document.
fn show_talk<C: Column>(
    rt: &HostRuntime,
    talk: Talk,
    kind: &C,
    tables: Parts,
) -> io::Result<Parts> {
    let Talk { damage, questions } = talk;
    show_questions(rt, damage, kind, damage.bytes, questions, tables)
}

/// Shows what is refused of damaged bytes.
fn show_damages(rt: &HostRuntime, mut tables: Parts) -> io::Result<Parts> {
    for damage in FLAT_STATES {
        tables = show_state(rt, damage, damage.bytes, &Flat, tables)?;
    }
    tables = show_state(rt, SHORT_STATE, SHORT_STATE.bytes, &Short, tables)?;
    for damage in STEPS_STATES {
        tables = show_state(rt, damage, damage.bytes, &Steps { lower: Flat }, tables)?;
    }
    tables = show_talk(rt, BITS, &Flat, tables)?;
    tables = show_talk(rt, BIT_STEPS, &Steps { lower: Flat }, tables)?;
    for talk in TALKS {
        tables = show_talk(rt, talk, &Flat, tables)?;
    }
    Ok(tables)
}

/// Reads the state with tables of these lengths.
fn show_budget(rt: &HostRuntime, title: &str, nodes: usize, slots: usize) -> io::Result<()> {
    let tables = reader_tables(rt.alloc(), nodes, slots)?;
    show_state(rt, title, &ANNA, &Flat, tables)?;
    Ok(())
}

/// Shows which tables are too small.
fn show_budgets(rt: &HostRuntime) -> io::Result<()> {
    show_budget(rt, "tables as large as a state needs", NODES, SLOTS)?;
    show_budget(rt, "one node record too few", NODES - 1, SLOTS)?;
    show_budget(rt, "one slot too few", NODES, SLOTS - 1)
}

/// Finishes after one of two numbers.
fn show_early(rt: &HostRuntime, tables: Parts) -> io::Result<Parts> {
    let Parts { nodes, slots } = tables;
    let mut reader = Reader::new(&Flat, &[2, 7, 9], nodes, slots);
    let questions = [
        Question::Seq { no_size: false },
        Question::Scalar(Scalar::U8),
    ];
    let answer = ask_each(&mut reader, &questions);
    show_answer(rt, "one of two numbers", answer)?;
    show_answer(rt, "finish after it", reader.finish())?;
    Ok(reader.into_tables())
}

/// Hands a text out of an input that is shorter than the reader's.
fn show_past(rt: &HostRuntime, tables: Parts) -> io::Result<Parts> {
    let input = [4, b'A', b'n', b'n', b'a'];
    let Parts { nodes, slots } = tables;
    let mut reader = Reader::new(&Flat, &input, nodes, slots);
    let answer = text(&mut reader, &input[..4]);
    show_answer(
        rt,
        "a text handed out of an input without its last byte",
        answer.map(|_| ()),
    )?;
    Ok(reader.into_tables())
}

/// Shows what a reader refuses.
pub(crate) fn show_unreadable(rt: &HostRuntime, tables: Parts) -> io::Result<Parts> {
    println!(rt; "what a reader refuses")?;
    let tables = show_damages(rt, tables)?;
    show_budgets(rt)?;
    let tables = show_early(rt, tables)?;
    show_past(rt, tables)
}
