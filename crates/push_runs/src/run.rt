// One line of a run, on one session's subscriptions and one zone, and its answer.
use crate::answer;
use crate::command::{Command, read_command};
use dso::Question;
use notify::Change;
use script::Bytes;
use session::Subscriptions;
use std::io;
use table::part;
use zone::Store;

// The output of one session.
const OUTPUT: usize = 16384;

// The records are in the first area, or in the second one where in_second says so: a truth about which, with no value beside it.
#[derive(Drop)]
pub struct Run {
    first: zone::Area,
    second: zone::Area,
    subs: session::Area,
    records: usize,
    in_second: bool,
    live: usize,
}

// The PUSH of a batch from the old store into the new one, and its answer.
fn push(rt: &impl Print, old: Store, new: Store, subs: Subscriptions) -> io::Result<()> {
    let gone = notify::departed(old, new);
    let fresh = notify::arrived(old, new);
    let change = Change {
        old,
        gone: &gone,
        new,
        fresh: &fresh,
    };
    let mut out = [0u8; OUTPUT];
    let n = notify::write_push(change, subs, &mut out);
    answer::stored(rt, part(&out, 0, n))
}

// A batch from the area that holds the records into the other one; how many records that has then, if it holds them.
fn batch(
    rt: &impl Print,
    bytes: &[u8],
    old: Store,
    new: &mut zone::Area,
    subs: Subscriptions,
) -> io::Result<Option<usize>> {
    match zone::batch(b"\x04shop\x07example\0", bytes, old, new) {
        Err(fault) => {
            answer::refused(rt, fault)?;
            Ok(None)
        }
        Ok(count) => {
            push(rt, old, Store { area: new, count }, subs)?;
            Ok(Some(count))
        }
    }
}

// The area that holds the records, and the other one. The same `if` in Run::batch lends each area as & in one branch and as &mut in
// the other, which the borrow checker does not cover: a place is lent at two lifetimes. Here both have one.
fn areas<'a>(
    first: &'a mut zone::Area,
    second: &'a mut zone::Area,
    in_second: bool,
) -> (&'a zone::Area, &'a mut zone::Area) {
    if in_second {
        (second, first)
    } else {
        (first, second)
    }
}

impl Run {
    pub fn new() -> Run {
        Run {
            first: [0; zone::AREA],
            second: [0; zone::AREA],
            subs: [0; session::AREA],
            records: 0,
            in_second: false,
            live: 0,
        }
    }

    fn fresh(&mut self, rt: &impl Print) -> io::Result<()> {
        self.records = 0;
        self.in_second = false;
        self.live = 0;
        answer::fresh(rt)
    }

    fn store(&self) -> Store<'_> {
        let area = if self.in_second {
            &self.second
        } else {
            &self.first
        };
        Store {
            area,
            count: self.records,
        }
    }

    // The subscription, and the first PUSH of it.
    fn subscribe(&mut self, rt: &impl Print, id: u16, question: Question) -> io::Result<()> {
        let mut out = [0u8; OUTPUT];
        let n = notify::write_first(self.store(), question, &mut out, 0);
        self.live = session::append(&mut self.subs, self.live, id, question);
        answer::subscribed(rt, part(&out, 0, n))
    }

    fn unsubscribe(&mut self, rt: &impl Print, id: u16) -> io::Result<()> {
        self.live = session::remove(&mut self.subs, self.live, id);
        answer::unsubscribed(rt)
    }

    fn batch(&mut self, rt: &impl Print, bytes: &[u8]) -> io::Result<()> {
        let subs = Subscriptions {
            area: &self.subs,
            count: self.live,
        };
        let (area, new) = areas(&mut self.first, &mut self.second, self.in_second);
        let old = Store {
            area,
            count: self.records,
        };
        let stored = batch(rt, bytes, old, new, subs)?;
        if let Some(records) = stored {
            self.records = records;
            self.in_second = !self.in_second;
        }
        Ok(())
    }

    // Carries a command out, if there is one, and writes its answer.
    fn run(&mut self, rt: &impl Print, command: Option<Command>) -> io::Result<()> {
        match command {
            Some(Command::Fresh) => self.fresh(rt),
            Some(Command::Subscribe(id, question)) => self.subscribe(rt, id, question),
            Some(Command::Unsubscribe(id)) => self.unsubscribe(rt, id),
            Some(Command::Batch(edits)) => self.batch(rt, edits),
            None => answer::unreadable(rt),
        }
    }

    pub fn run_line(&mut self, rt: &impl Print, line: &[u8]) -> io::Result<()> {
        let mut bytes: Bytes = [0; 16384];
        self.run(rt, read_command(line, &mut bytes))
    }
}
