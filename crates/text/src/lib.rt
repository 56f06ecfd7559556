// Lines of text, written straight into the output: no number is made in a buffer of its own and copied to its place.
#![tactic(auto)]

ghost use Rattle.std.specs.Prelude.{◌≡◌, ◌+◌, ◌≤◌, leb, length};
ghost use Rattle.text.specs.Page.{Adds, HasRoom};
ghost use Rattle.text.specs.Text.{decimal, line, slot_line, number_size, line_size, slot_line_size, PutIn};

use itoa::write_digits;

// The longest number, of 64 bits; the longest line, of two numbers; the longest line of a slot.
pub const NUMBER: usize = 20;

pub const LINE: usize = 2 * (NUMBER + 1);

pub const SLOT_LINE: usize = 5 + LINE;

// The output, and where its text ends.
#[derive(Drop)]
struct Page<'a> {
    bytes: &'a mut [u8],
    end: usize,
}

impl Page<'_> {
    // Whether `size` bytes have room after the text.
    fn has_room(&self, size: usize) -> bool
        ensures { result ≡ leb (self.now.end + size) (length self.now.bytes.now) }
    {
        self.end <= self.bytes.len() && size <= self.bytes.len() - self.end
    }

    // Adds some text.
    fn put(&mut self, text: &[u8])
        requires { HasRoom self.old (length text.now) }
        ensures { Adds self.old text.now self.new }
    {
        let end = self.end + text.len();
        self.bytes[self.end..end].copy_from_slice(text);
        self.end = end;
    }

    // Adds `n` in decimal: its logarithm says where its digits end, and the library puts them before that place.
    // Not by `write!`: that it wrote all did not close, since its contract does not say that it ends without an error.
    #[tactic(auto, using(crate::proofs::Widths::log_length))]
    fn put_decimal(&mut self, n: u64)
        requires { HasRoom self.old number_size }
        ensures adds { Adds self.old (decimal n) self.new }
        ensures short { self.new.end ≤ self.old.end + number_size }
    {
        let end = self.end + n.max(1).ilog10() as usize + 1;
        write_digits(n, self.bytes, end);
        self.end = end;
    }

    // Adds two numbers with a space between them and a newline.
    fn put_numbers(&mut self, first: u64, second: u64)
        requires { HasRoom self.old line_size }
        ensures { Adds self.old (line first second) self.new }
    {
        self.put_decimal(first);
        self.put(b" ");
        self.put_decimal(second);
        self.put(b"\n");
    }

    // Adds the word "slot", a space and two numbers.
    #[tactic(auto, using(crate::proofs::Filling::adds_then, crate::proofs::Widths::line_most), unfolding(crate::specs::Text::slot_line))]
    fn put_slot(&mut self, slot: u64, count: u64)
        requires { HasRoom self.old slot_line_size }
        ensures { Adds self.old (slot_line slot count) self.new }
    {
        self.put(b"slot ");
        self.put_numbers(slot, count);
    }
}

// A record's line, at `at` of the output, where the longest one has room. Answers where it ends. Output and place stay
// two parameters: `PutIn` says what the caller's slice holds from there.
pub fn put_line(out: &mut [u8], at: usize, place: u64, number: u64) -> usize
    ensures { PutIn line_size out.old at (line place number) out.new result }
{
    let mut page = Page {
        bytes: out,
        end: at,
    };
    if page.has_room(LINE) {
        page.put_numbers(place, number);
        page.end
    } else {
        at
    }
}

// A slot's line, at `at` of the output, where the longest one has room. Answers where it ends.
// Not one function with `put_line`: its size and its method would be parameters, the method with a contract of its own.
pub fn put_slot_line(out: &mut [u8], at: usize, slot: u64, count: u64) -> usize
    ensures { PutIn slot_line_size out.old at (slot_line slot count) out.new result }
{
    let mut page = Page {
        bytes: out,
        end: at,
    };
    if page.has_room(SLOT_LINE) {
        page.put_slot(slot, count);
        page.end
    } else {
        at
    }
}
