// The output: what is written for each line, in one buffer, and a note for people behind it, if answers are explained.
//   Page                               the buffer, and how much of it is filled
//   flush                              what is filled is written out
//   put_answer, put_shown, put_saved   an event's answer, whose number is shown, a saved form
//   put_bad_line, put_no_table, put_touched, put_opened
// Each makes room first.
ghost use Rattle.std.specs.Prelude.{◌≡◌, ◌≤◌, length};
ghost use Rattle.script.specs.Lines.{Asks};

use outcome::Answered;
use script::Request;
use shown::Extent;
use slots::{Flags, Slots};

#[derive(Drop)]
pub(crate) struct Page {
    octets: [u8; 65536],
    used: usize,
    explains: bool,
    ghost within: { used ≤ 65536 },
}

impl Page {
    pub(crate) fn new(explains: bool) -> Page
        ensures { result.used ≡ 0 }
    {
        Page {
            octets: [0u8; 65536],
            used: 0,
            explains,
        }
    }

    // Writes out what is filled, and answers if it could.
    pub(crate) fn flush(&mut self, rt: &impl Print) -> bool
        ensures { self.new.used ≡ 0 }
    {
        let is_written = rt.write_all(&self.octets[..self.used]).is_ok();
        self.used = 0;
        is_written
    }

    // Where a line begins: the page is written out before if it is nearly full (docs/DECISIONS.md, "The programs").
    fn place(&mut self, rt: &impl Print) -> usize
        ensures { result ≤ 32768 }
    {
        if 32768 < self.used {
            self.flush(rt);
        }
        self.used
    }

    // A text, and a note behind it if answers are explained.
    fn put(&mut self, rt: &impl Print, text: &[u8], note: &[u8])
        requires { (length text.now ≤ 16) × (length note.now ≤ 64) }
    {
        let at = self.place(rt);
        let mut next = octets::put(&mut self.octets, at, text);
        if self.explains {
            next = octets::put(&mut self.octets, next, note);
        }
        self.used = next;
    }

    // A line that cannot be read; an empty line and a comment get no answer.
    pub(crate) fn put_bad_line(&mut self, rt: &impl Print, line: &[u8]) {
        if !matches!(line.first(), None | Some(b'#')) {
            self.put(rt, b"bad line\n", b"# the line cannot be read\n");
        }
    }

    pub(crate) fn put_no_table(&mut self, rt: &impl Print) {
        self.put(
            rt,
            b"no table\n",
            b"# no start and no reload was accepted\n",
        );
    }

    pub(crate) fn put_touched(&mut self, rt: &impl Print) {
        self.put(
            rt,
            b"room touched\n",
            b"# the room behind the reply was touched\n",
        );
    }

    // What a start or a reload answers, with a note for each case.
    pub(crate) fn put_opened(
        &mut self,
        rt: &impl Print,
        is_accepted: bool,
        accepted: &[u8],
        refused: &[u8],
    )
        requires { (length accepted.now ≤ 64) × (length refused.now ≤ 64) }
    {
        if is_accepted {
            self.put(rt, b"0 - 0 - 0\n", accepted);
        } else {
            self.put(rt, b"9 - 0 - 0\n", refused);
        }
    }

    // An event's answer line; behind it what came in and went out, with the slots before and after.
    pub(crate) fn put_answer(
        &mut self,
        rt: &impl Print,
        request: Request,
        came: &[u8],
        reply: &[u8],
        before: Slots,
        answer: Answered,
    )
        requires { (length reply.now ≤ 4096) × Asks request (length came.now) }
    {
        let at = self.place(rt);
        let mut next = answers::put_answer(
            &mut self.octets,
            at,
            answer.refusal,
            reply,
            answer.notice,
            answer.flags,
            answer.more,
        );
        if self.explains {
            next = explain::put_line(
                &mut self.octets,
                next,
                request,
                came,
                answer.refusal,
                reply,
                before,
                answer.table.slots,
            );
        }
        self.used = next;
    }

    // Which part of a message or of a record is shown.
    pub(crate) fn put_shown(&mut self, rt: &impl Print, extent: Extent, part: &[u8])
        requires { length part.now ≤ 4096 }
    {
        let at = self.place(rt);
        let mut next = display::put_answer(&mut self.octets, at, extent, part);
        if self.explains {
            next = display::put_words(&mut self.octets, next, extent);
        }
        self.used = next;
    }

    // A saved form, or the number of what refused it.
    pub(crate) fn put_saved(&mut self, rt: &impl Print, refusal: u8, form: &[u8])
        requires { length form.now ≤ 4096 }
    {
        let at = self.place(rt);
        let mut next = answers::put_answer(
            &mut self.octets,
            at,
            refusal,
            form,
            0,
            Flags::none(),
            false,
        );
        if self.explains {
            next = put_note(&mut self.octets, next, refusal, form.len());
        }
        self.used = next;
    }
}

// For people: how many octets were saved, or why none.
fn put_note(out: &mut [u8; 65536], at: usize, refusal: u8, n: usize) -> usize
    requires { at ≤ 50000 }
    ensures { result ≤ 65536 }
{
    if refusal != 0 {
        return octets::put(out, at, b"# room smaller than the saved form\n");
    }
    let next = octets::put(out, at, b"# table saved: ");
    let next = ascii::put_decimal(out, next, n as u64);
    octets::put(out, next, b" octets\n")
}
