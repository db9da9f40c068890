//! The results of scripts over a node table: one of them as a session on a book of its own, or all concurrently.
ghost use Rattle.std.specs.Prelude.{◌≡◌, ◌≤◌, length, All, IsTrue};
ghost use Rattle.lang_model.specs.Limits.{script_limit};

use fork_quads::{Crew, Gate, OpenGate};
use lang_model::limits::SCRIPT_LIMIT;
use name_map::NameMap;
use pair_table::PairTable;
use rel_engine::Works;
use rel_model::NoMemory;
use rel_slices::Remembers;
use run_model::event::Event;
use run_model::files::{Loaded, Save};
use run_model::outcome::Outcome;
use rv_blocks::Versions;
use rv_print::event_line;
use rv_runs::{BatchEnd, make_page, run_batch, take_apart};
use rv_sessions::{Reply, Seat, Setting, Transcript, run};
use rv_workspace::Book;
use std::alloc::{AllocError, Global};
use std::process::Abort;
use std::sync::Wait;
use std::thread::Threads;
use turn_book::TurnBook;

/// How many turns the loops of an expression may take, the binary logarithm of the number of node words, and the number
/// of workers.
#[derive(Clone, Copy)]
pub(crate) struct Options {
    pub(crate) turns: u64,
    pub(crate) nodes: u32,
    pub(crate) workers: u32,
}

/// The results of scripts: the outcomes as letters, with a stroke between two sessions; the page; the events; and the
/// files to be put.
pub(crate) struct Came {
    pub(crate) outcomes: Vec<u8>,
    pub(crate) page: Vec<u8>,
    pub(crate) history: Vec<Event>,
    pub(crate) saves: Vec<Save>,
}

impl Drop for Came {
    fn drop(self) {
        let Came {
            outcomes: _,
            page: _,
            history: _,
            saves: _,
        } = self;
    }
}

/// The letter of an outcome.
fn letter_of(outcome: &Outcome) -> u8 {
    match outcome {
        Outcome::Done => b'.',
        Outcome::Parse(_) => b'p',
        Outcome::Ill(_) => b'i',
        Outcome::Size { .. } => b's',
        Outcome::Turns { .. } => b't',
        Outcome::Nodes => b'n',
        Outcome::TooLarge { .. } => b'l',
        Outcome::TooLong { .. } => b'b',
        Outcome::NoFile { .. } => b'f',
        Outcome::BadFile { .. } => b'k',
        Outcome::NoMemory => b'm',
        Outcome::Changed { .. } => b'c',
    }
}

/// Appends the letters of a session's outcomes.
fn push_letters(out: &mut Vec<u8>, outcomes: &[Outcome]) -> Result<(), AllocError> {
    for outcome in outcomes {
        out.push(letter_of(outcome))?;
    }
    Ok(())
}

/// Appends a reply, with the numbers of its session and of its command.
fn push_reply(alloc: Global, out: &mut Vec<u8>, reply: &Reply) -> Result<(), AllocError> {
    match reply {
        Reply::Nothing => Ok(()),
        Reply::Told {
            session,
            command,
            body,
        } => {
            let numbers = format!(in alloc; "{session}.{command}: ")?;
            out.extend_from_slice(numbers.as_bytes())?;
            out.extend_from_slice(body.as_slice())
        }
        Reply::NoMemory { session, command } => {
            let line = format!(in alloc; "{session}.{command}: refused: no memory\n")?;
            out.extend_from_slice(line.as_bytes())
        }
    }
}

/// Appends a line for each event.
pub(crate) fn push_history(
    alloc: Global,
    out: &mut Vec<u8>,
    history: &[Event],
) -> Result<(), AllocError> {
    for event in history {
        match event_line(alloc, event) {
            Ok(line) => out.extend_from_slice(line.as_slice())?,
            Err(NoMemory) => return Err(AllocError),
        }
    }
    Ok(())
}

/// Relation files with their names and bytes.
pub(crate) fn loaded(alloc: Global, files: &[(&str, &[u8])]) -> Result<Vec<Loaded>, AllocError> {
    let mut out = Vec::new(alloc);
    for (name, bytes) in files {
        out.push(Loaded {
            name: String::from_str(alloc, name)?,
            bytes: Vec::from_slice(alloc, bytes)?,
        })?;
    }
    Ok(out)
}

/// The bytes of scripts.
pub(crate) fn scripts_of(alloc: Global, texts: &[&str]) -> Result<Vec<Vec<u8>>, AllocError> {
    let mut out = Vec::new(alloc);
    for text in texts {
        out.push(Vec::from_slice(alloc, text.as_bytes())?)?;
    }
    Ok(out)
}

/// Whether no script exceeds the limit.
fn are_short(scripts: &[Vec<u8>]) -> bool
    ensures { IsTrue result → All (λ v. length v.items ≤ script_limit) scripts.now }
{
    'scripts: for i in 0..scripts.len() {
        if scripts[i].as_slice().len() > SCRIPT_LIMIT {
            return false;
        }
    }
    true
}

/// Asserts that options are within their limits.
fn assert_fit(rt: &impl Abort, options: Options)
    ensures least { 10 ≤ options.nodes }
    ensures most { options.nodes ≤ 24 }
    ensures some { 1 ≤ options.workers }
    ensures few { options.workers ≤ 64 }
{
    assert!(rt; options.nodes >= 10 && options.nodes <= 24);
    assert!(rt; options.workers >= 1 && options.workers <= 64);
}

/// Runs a script as the first session on a book of its own. Answers its transcript and the history.
fn session_over<R: Wait + Abort, E: Remembers + Drop>(
    rt: &R,
    alloc: Global,
    turns: u64,
    script: &[u8],
    files: &[Loaded],
    mut engine: E,
) -> (Transcript, Vec<Event>)
    requires limit { length script.now ≤ script_limit }
    requires spare { (E.worker engine).spare ≡ 66 }
    requires made { (E.worker engine).made ≡ 0 }
{
    let archive = engine.split(1);
    let first = Book::new(alloc, archive);
    let Ok((book, pass)) = TurnBook::make(alloc, first, 1) else {
        panic!(rt; "no memory")
    };
    let mut seat = Seat { pass, engine };
    let ran = run(
        &Setting {
            alloc,
            files,
            turns,
            book: &book,
            wait: rt,
        },
        1,
        script,
        &mut seat,
    );
    let Seat { pass, engine: _ } = seat;
    let (_, history, _, _) = book.close(pass).into_parts();
    let Ok(transcript) = ran else {
        panic!(rt; "no memory")
    };
    (transcript, history)
}

/// The letters of a session's outcomes.
fn letters_of(alloc: Global, outcomes: &[Outcome]) -> Result<Vec<u8>, AllocError> {
    let mut letters = Vec::new(alloc);
    push_letters(&mut letters, outcomes)?;
    Ok(letters)
}

/// The replies of a session, and then its history.
fn page_of(alloc: Global, replies: &[Reply], history: &[Event]) -> Result<Vec<u8>, AllocError> {
    let mut page = Vec::new(alloc);
    for reply in replies {
        push_reply(alloc, &mut page, reply)?;
    }
    push_history(alloc, &mut page, history)?;
    Ok(page)
}

/// The results of a session.
fn session_came(
    alloc: Global,
    transcript: Transcript,
    history: Vec<Event>,
) -> Result<Came, AllocError> {
    let page = page_of(alloc, transcript.replies.as_slice(), history.as_slice())?;
    let outcomes = letters_of(alloc, transcript.outcomes.as_slice())?;
    let Transcript { saves, .. } = transcript;
    Ok(Came {
        outcomes,
        page,
        history,
        saves,
    })
}

/// Runs a script alone. Answers its replies, and then its history.
#[tactic(auto, unfolding(rel_model::specs::Trees::bottom_height))]
pub(crate) fn run_alone<R: Threads + Wait + Abort + Sync>(
    rt: &R,
    alloc: Global,
    options: Options,
    script: &str,
    files: &[Loaded],
) -> Result<Came, AllocError> {
    assert_fit(rt, options);
    let script = script.as_bytes();
    assert!(rt; script.len() <= SCRIPT_LIMIT);
    let Ok((table, seat)) = PairTable::make(alloc, options.nodes, 67) else {
        panic!(rt; "no memory")
    };
    let gate = OpenGate;
    let works = Works::new(Crew::new(rt, &table, seat, options.workers, &gate));
    let (transcript, history) = session_over(rt, alloc, options.turns, script, files, works);
    session_came(alloc, transcript, history)
}

/// The letters of the outcomes of sessions, with a stroke between two.
fn letters_of_all(alloc: Global, outcomes: &[Vec<Outcome>]) -> Result<Vec<u8>, AllocError> {
    let mut letters = Vec::new(alloc);
    let mut first = true;
    for own in outcomes {
        if !first {
            letters.push(b'/')?;
        }
        push_letters(&mut letters, own.as_slice())?;
        first = false;
    }
    Ok(letters)
}

/// The results of a batch as a run of its own.
fn run_came<E: Drop>(alloc: Global, ended: BatchEnd<E>, history: bool) -> Result<Came, NoMemory> {
    let BatchEnd {
        engine: _,
        events,
        told,
        names: _,
        versions: _,
    } = ended;
    let page = make_page(alloc, told.as_slice(), events.as_slice(), history)?;
    let (outcomes, saves) = take_apart(alloc, told)?;
    let letters = letters_of_all(alloc, outcomes.as_slice())?;
    Ok(Came {
        outcomes: letters,
        page,
        history: events,
        saves,
    })
}

/// Runs scripts concurrently over a table with a seat for each session and its workers, through a gate.
#[tactic(auto, unfolding(rel_model::specs::Trees::bottom_height))]
pub(crate) fn run_at_once<R: Threads + Wait + Abort + Sync, G: Gate + Sync>(
    rt: &R,
    alloc: Global,
    options: Options,
    scripts: &[Vec<u8>],
    files: &[Loaded],
    history: bool,
    gate: &G,
) -> Result<Came, AllocError> {
    assert_fit(rt, options);
    assert!(rt; scripts.len() >= 1 && scripts.len() <= 64);
    assert!(rt; are_short(scripts));
    let seats = 65 * scripts.len() as u32 + 3;
    let Ok((table, seat)) = PairTable::make(alloc, options.nodes, seats) else {
        panic!(rt; "no memory")
    };
    let works = Works::new(Crew::new(rt, &table, seat, options.workers, gate));
    let names = NameMap::new(alloc);
    let versions = Versions::new(alloc);
    let Ok(ended) = run_batch(
        rt,
        alloc,
        scripts,
        1,
        files,
        options.turns,
        gate,
        names,
        versions,
        works,
    ) else {
        panic!(rt; "no memory")
    };
    match run_came(alloc, ended, history) {
        Ok(came) => Ok(came),
        Err(NoMemory) => panic!(rt; "no memory"),
    }
}
