// What the steps of a lesson must answer, what came, and what is said where they differ.
use super::{Last, Session};
use expected::{Expected, Response};
use std::ops::ControlFlow;
use text::Line;

// ---- words

// The interrupt lines that are up, where they are expected.
fn with_lines(l: Line, x: Expected, up: u8) -> Line {
    if x.lines.is_none() {
        return l;
    }
    let a = if x.response.is_some() {
        l.put(b", lines")
    } else {
        l.put(b"lines")
    };
    wording::lines_up(a, up, b" none")
}

fn with_word(l: Line, w: u32) -> Line {
    l.put(b"the word ").hex(w, 8)
}

// Which line expects what.
fn wanted(line: u64, x: Expected) -> Line {
    let a = Line::empty().said(b"line %: expected ", line);
    let b = match x.response {
        None => a,
        Some(Response { code: 0, word }) => with_word(a, word),
        Some(Response { code, .. }) => a.said(b"refused %", u64::from(code)),
    };
    with_lines(b, x, x.lines.unwrap_or(0))
}

impl Session {
    // What the last answer is.
    fn with_answer(&self, l: Line) -> Line {
        match self.last {
            Last::Unread(why) => wording::fault(l, self.fault(why)),
            Last::Opening => wording::unopened(l),
            Last::Step(reason) if self.answer.code != 0 => {
                wording::refused(l, self.answer.code, reason)
            }
            _ => with_word(l, self.answer.word),
        }
    }

    // What is not as a line expects it; a script that stopped did so at a byte.
    fn complaint(&self, line: u64, x: Expected) -> Line {
        let a = wanted(line, x);
        match self.last {
            Last::Nothing => a.put(b"; there is no step above\n"),
            Last::Behind => a.said(b"; the script stopped before, at byte %\n", self.bytes),
            _ => {
                let b = a.put(b"; came ");
                let c = if x.response.is_some() {
                    self.with_answer(b)
                } else {
                    b
                };
                with_lines(c, x, self.answer.lines).byte(b'\n')
            }
        }
    }

    // ---- what is expected

    // The text before a complaint goes out first.
    fn fail(&mut self, l: Line) -> ControlFlow<()> {
        let flow = self.flush();
        self.checked = self.checked.wrapping_add(1);
        self.failures = self.failures.wrapping_add(1);
        self.complain(l);
        flow
    }

    // A code that is expected needs no complaint of its record.
    fn check(&mut self, line: u64, x: Expected) -> ControlFlow<()> {
        let answered = !matches!(self.last, Last::Nothing | Last::Behind);
        if answered && x.holds(self.answer) {
            self.checked = self.checked.wrapping_add(1);
            if x.response.is_some() {
                self.unsaid = None;
            }
            return ControlFlow::Continue(());
        }
        self.tell_unsaid();
        let l = self.complaint(line, x);
        self.fail(l)
    }

    // What waited for the record is checked.
    pub(crate) fn check_pending(&mut self) -> ControlFlow<()> {
        match self.pending.take() {
            Some((line, x)) => self.check(line, x),
            None => ControlFlow::Continue(()),
        }
    }

    // What the line with a number expects of the last answer. Of a record that isn't whole yet it waits for it, once; no line has the
    // number 0.
    pub(crate) fn expect(&mut self, line: u64, x: Expected) -> ControlFlow<()> {
        if self.stopped || self.script.unread().is_empty() {
            return self.check(line, x);
        }
        if self.pending.is_some() {
            let l = wanted(line, x);
            return self.fail(l.put(
                b"; the record above isn't whole yet, and one line expects its answer already\n",
            ));
        }
        self.pending = (line != 0).then_some((line, x));
        ControlFlow::Continue(())
    }
}
