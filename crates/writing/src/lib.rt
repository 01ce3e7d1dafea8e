// Texts put into a lent buffer one after the other. A writer goes on also where its buffer ends: so one run on a buffer without room tells
// how long a text is, and another writes it.
#![tactic(auto)]

ghost use Rattle.std.specs.Prelude.{ℕ, List, ◌≡◌, take};
ghost use Rattle.refusals.specs.Refusals.{numbers_of};
ghost use Rattle.writing.specs.Decimal.{decimal};
ghost use Rattle.writing.specs.Placed.{Wrote, Answer};
ghost use Rattle.writing.specs.Refused.{refused_text};
ghost use Rattle.writing.specs.Writers.{with_text};

use refusals::Refusal;

// A lent buffer, and the place at which the next text is put.
#[derive(Drop)]
pub struct Writer<'o> {
    out: &'o mut [u8],
    at: usize,
}

impl<'o> Writer<'o> {
    // At the front of a buffer.
    pub fn new(out: &'o mut [u8]) -> Writer<'o>
        ensures { result ≡ record { out = out.entry; at = 0 } }
    {
        Writer { out, at: 0 }
    }

    // The place: how long what was put is, or the largest number where that is longer.
    pub fn at(&self) -> usize
        ensures { result ≡ self.now.at }
    {
        self.at
    }

    // What was put, as much of it as there was room for.
    pub fn written(&self) -> &[u8]
        ensures { result.now ≡ take self.now.at self.now.out.now }
    {
        let end = self.at.min(self.out.len());
        &self.out[..end]
    }

    // Puts a text, as much of it as there is room for, and goes on behind it.
    pub fn put(&mut self, text: &[u8])
        ensures { self.new ≡ with_text self.old text.now }
    {
        let end = self.at.saturating_add(text.len());
        if end <= self.out.len() {
            self.out[self.at..end].copy_from_slice(text);
        } else if self.at < self.out.len() {
            let n = self.out.len() - self.at;
            self.out[self.at..].copy_from_slice(&text[..n]);
        }
        self.at = end;
    }

    // Puts a number in decimal notation.
    #[tactic(auto, using(std::proofs::lemmas::Grind::common_steps, crate::proofs::Digits::one_digit, crate::proofs::Digits::more_digits))]
    pub fn put_decimal(&mut self, n: usize)
        ensures { self.new ≡ with_text self.old (decimal n) }
    {
        if 10 <= n {
            self.put_decimal(n / 10);
        }
        self.put(&[b'0' + (n % 10) as u8]);
    }
}

// What has a text, and puts it. Not `std::fmt::Display`: that tells the text only where it answers Ok, and nothing says that it does; here
// a text is measured or put without fail. Texts are bytes, as a word's are.
pub trait Printed {
    ghost text: { Self → List ℕ };

    fn put(&self, w: &mut Writer)
        ensures { w.new ≡ with_text w.old (text self.now) };
}

// Puts a text at the front of `out`, as much of it as there is room for, and gives how long it is.
pub fn put_front<P: Printed>(what: &P, out: &mut [u8]) -> usize
    ensures { Wrote out.old out.new 0 result (P.text what.now) }
{
    let mut w = Writer::new(out);
    what.put(&mut w);
    w.at()
}

// Writes a text at the front of `out`. Too short a buffer is left as it was.
pub fn write_whole<P: Printed>(what: &P, out: &mut [u8]) -> Result<usize, Refusal>
    ensures { Answer (P.text what.now) out.old out.new result }
{
    let n = put_front(what, &mut []);
    if out.len() < n {
        return Err(Refusal::OutputTooShort);
    }
    put_front(what, out);
    Ok(n)
}

// The line of a refusal: its number, and the place that comes with it.
impl Printed for Refusal {
    ghost text = { λ r. refused_text (numbers_of r) };

    #[tactic(auto, unfolding(crate::specs::Refused::refused_text))]
    fn put(&self, w: &mut Writer) {
        w.put(b"(refused ");
        w.put_decimal(self.number());
        if let Some(start) = self.place() {
            w.put(b" ");
            w.put_decimal(start);
        }
        w.put(b")\n");
    }
}

// Writes the line of a refusal at the front of `out`. Too short a buffer is left as it was.
pub fn write_refused(refusal: Refusal, out: &mut [u8]) -> Result<usize, Refusal>
    ensures { Answer (refused_text (numbers_of refusal)) out.old out.new result }
{
    write_whole(&refusal, out)
}
