//! What sessions reply about one name that they share, computed from the history: it is folded by the rules of the
//! commands, and each reply follows.
use crate::made::push_history;
use run_model::event::{Act, Event};
use std::alloc::{AllocError, Global};
use std::process::Abort;

/// The progress of a session: how many commands it has completed, and the cell that a LET took which has not assigned
/// yet.
#[derive(Clone, Copy)]
struct Place {
    behind: usize,
    taken: Option<bool>,
}

/// What a command replies.
#[derive(Clone, Copy)]
enum Said {
    /// Nothing.
    Nothing,
    /// The single cell of the name.
    Cell(bool),
    /// There is no such name, at this column of its line.
    Unknown(u32),
}

/// The state after an event: the cell of the name, if it exists; the progress of its session; and what its command
/// replies.
#[derive(Clone, Copy)]
struct Left {
    cell: Option<bool>,
    place: Place,
    said: Said,
}

/// The text of the command with this letter: each is on a line of its own, and is about the single name X.
pub(crate) fn command_of(letter: u8) -> &'static str {
    match letter {
        b'N' => "LET X = -X.\n",
        b'P' => "PRINT X.\n",
        b'D' => "DROP X.\n",
        b'1' => "REL X 1 1 {1:1}.\n",
        _ => "REL X 1 1 {}.\n",
    }
}

/// The progress after a command.
fn next(place: Place) -> Place {
    Place {
        behind: place.behind.wrapping_add(1),
        taken: None,
    }
}

/// The state after a read, given the letter of its command. None if such a command does not read then.
fn left_by_read(letter: u8, cell: Option<bool>, place: Place) -> Option<Left> {
    let said = match (letter, cell) {
        (b'N', Some(_)) if place.taken.is_none() => {
            return Some(Left {
                cell,
                place: Place {
                    behind: place.behind,
                    taken: cell,
                },
                said: Said::Nothing,
            });
        }
        (b'N', None) if place.taken.is_none() => Said::Unknown(10),
        (b'P', Some(shown)) => Said::Cell(shown),
        (b'P', None) => Said::Unknown(7),
        (b'D', None) => Said::Unknown(6),
        _ => return None,
    };
    Some(Left {
        cell,
        place: next(place),
        said,
    })
}

/// The state after an assignment, given the letter of its command. None if such a command does not assign then.
fn left_by_assign(letter: u8, place: Place) -> Option<Left> {
    let cell = match (letter, place.taken) {
        (b'N', Some(taken)) => !taken,
        (b'1', None) => true,
        (b'0', None) => false,
        _ => return None,
    };
    Some(Left {
        cell: Some(cell),
        place: next(place),
        said: Said::Nothing,
    })
}

/// The state after an event, given the letter of its command. None if such a command does no such thing then.
fn left_by(letter: u8, act: &Act, cell: Option<bool>, place: Place) -> Option<Left> {
    match act {
        Act::Read => left_by_read(letter, cell, place),
        Act::Assign { name, rel } => {
            if name.bytes() != b"X".as_slice() || rel.rows != 1 || rel.cols != 1 {
                return None;
            }
            left_by_assign(letter, place)
        }
        Act::Remove { name } => {
            if name.bytes() != b"X".as_slice() || letter != b'D' || cell.is_none() {
                return None;
            }
            Some(Left {
                cell: None,
                place: next(place),
                said: Said::Nothing,
            })
        }
    }
}

/// Appends what a command replies.
fn push_said(
    alloc: Global,
    out: &mut Vec<u8>,
    session: u32,
    command: u32,
    said: Said,
) -> Result<(), AllocError> {
    let text = match said {
        Said::Nothing => return Ok(()),
        Said::Cell(true) => format!(in alloc; "{session}.{command}: 1 x 1\n1\n")?,
        Said::Cell(false) => format!(in alloc; "{session}.{command}: 1 x 1\n.\n")?,
        Said::Unknown(column) => {
            format!(in alloc; "{session}.{command}: refused: {command}:{column}: unknown name X\n")?
        }
    };
    out.extend_from_slice(text.as_bytes())
}

/// Appends what one session replies, given a letter for each of its commands. The test fails for a history that no
/// order of the sessions' turns can produce, and for one in which a session did not finish.
fn push_session(
    rt: &impl Abort,
    alloc: Global,
    out: &mut Vec<u8>,
    letters: &[Vec<u8>],
    history: &[Event],
    session: u32,
) -> Result<(), AllocError> {
    let mut cell = None;
    let mut places = [Place {
        behind: 0,
        taken: None,
    }; 65];
    'events: for event in history {
        let s = event.session as usize;
        assert!(rt; s >= 1 && s <= 64 && s <= letters.len(), "session {s}");
        let left = left_behind(rt, letters[s - 1].as_slice(), event, cell, places[s]);
        cell = left.cell;
        places[s] = left.place;
        if event.session == session {
            push_said(alloc, out, session, event.command, left.said)?;
        }
    }
    'sessions: for s in 0..letters.len() {
        assert!(rt; s < 64);
        assert!(rt; places[s + 1].behind == letters[s].len(), "of session {s}");
    }
    Ok(())
}

/// The state after an event, given the letters of the commands of its session.
fn left_behind(
    rt: &impl Abort,
    letters: &[u8],
    event: &Event,
    cell: Option<bool>,
    place: Place,
) -> Left {
    let session = event.session;
    let Some(letter) = letters.get(place.behind) else {
        panic!(rt; "an event behind the last command of session {session}")
    };
    assert!(rt;
        event.command as usize == place.behind.wrapping_add(1),
        "in session {session}"
    );
    let Some(left) = left_by(*letter, &event.act, cell, place) else {
        panic!(rt; "an event of another command in session {session}")
    };
    left
}

/// The page of sessions, given a letter for each of their commands, computed from their history.
pub(crate) fn page_by(
    rt: &impl Abort,
    alloc: Global,
    letters: &[Vec<u8>],
    history: &[Event],
    asked: bool,
) -> Result<Vec<u8>, AllocError> {
    let mut out = Vec::new(alloc);
    assert!(rt; letters.len() <= 64);
    'sessions: for s in 0..letters.len() {
        push_session(rt, alloc, &mut out, letters, history, s as u32 + 1)?;
    }
    if asked {
        push_history(alloc, &mut out, history)?;
    }
    Ok(out)
}
