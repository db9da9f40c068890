//! The lines of the history.
use crate::made::{are, name};
use rel_model::Rel;
use run_model::event::{Act, Event};
use rv_print::event_line;

#[test]
fn a_line_tells_session_command_and_what_was_done(rt: HostRuntime) {
    let alloc = rt.alloc();
    let rel = Rel {
        rows: 1,
        cols: 16_777_216,
        root: 7,
    };
    let events = [
        (1, 2, Act::Read, "1.2 read\n"),
        (
            12,
            345,
            Act::Assign {
                name: name(&rt, alloc, "A1"),
                rel,
            },
            "12.345 assign A1 1 x 16777216\n",
        ),
        (
            1,
            6,
            Act::Remove {
                name: name(&rt, alloc, "A"),
            },
            "1.6 drop A\n",
        ),
    ];
    'events: for (session, command, act, wanted) in events {
        let event = Event {
            session,
            command,
            act,
        };
        match event_line(alloc, &event) {
            Ok(line) => are(&rt, line.as_slice(), wanted),
            Err(_) => panic!(rt; "no memory"),
        }
    }
}
