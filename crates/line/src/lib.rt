// The lines that the program prints and those of a sheet. Each is put into a sink: a lent buffer, or a count of the bytes alone.
#![tactic(auto)]

ghost use Rattle.std.specs.Prelude.{◌≡◌, [], ◌∷◌, ◌++◌, ◌+◌, ◌*◌, ◌≤◌, List, ℕ, length, drop};
ghost use Rattle.lists.specs.Lists.{concat_map};
ghost use Rattle.lists.specs.Decimal.{decimal};
ghost use Rattle.line.specs.Line.{field_bytes, line_from, line_of, numbers_of};
ghost use Rattle.line.specs.Sinks.{SinkLaws, count_fits, Counts, front_fits, Fronts};
ghost use Rattle.line.specs.Laws.{count_laws, front_laws};

// Where the bytes of lines go, one piece after the other.
pub trait Sink {
    // `fits a n`: n bytes more fit in a.
    ghost fits: { Self → ℕ → Type 0 };

    // `puts a s b`: b is a after the bytes s were put into it.
    ghost puts: { Self → List ℕ → Self → Type 0 };

    // Puts the bytes of a word.
    fn put(&mut self, word: &[u8])
        requires { fits self.old (length word.now) }
        ensures { puts self.old word.now self.new };

    // Puts the digits of n.
    fn put_digits(&mut self, n: u64)
        requires { fits self.old (length (decimal n)) }
        ensures { puts self.old (decimal n) self.new };

    // Puts the field of n: a tab and its digits.
    fn put_field(&mut self, n: u64)
        requires { fits self.old (length (field_bytes n)) }
        ensures { puts self.old (field_bytes n) self.new }
    {
        self.put(b"\t");
        self.put_digits(n);
    }

    ghost laws: { SinkLaws fits puts };

    // Puts the field of each event.
    final fn put_fields(&mut self, events: &[u8])
        requires { fits self.old (length (concat_map field_bytes events.now)) }
        ensures { puts self.old (concat_map field_bytes events.now) self.new }
    {
        for &event in events {
            self.put_field(u64::from(event));
        }
    }

    // Puts the line end.
    final fn put_end(&mut self)
        requires { fits self.old 1 }
        ensures { puts self.old (10 ∷ []) self.new }
    {
        self.put(b"\n");
    }

    // Puts the line of an index and its events.
    #[tactic(auto, unfolding(crate::specs::Line::line_of))]
    final fn put_line(&mut self, index: u64, events: &[u8])
        requires { fits self.old (length (line_of index events.now)) }
        ensures { puts self.old (line_of index events.now) self.new }
    {
        self.put_digits(index);
        self.put_fields(events);
        self.put_end();
    }

    // Puts the line of a word and events.
    final fn put_events(&mut self, word: &[u8], events: &[u8])
        requires { fits self.old (length (line_from word.now events.now)) }
        ensures { puts self.old (line_from word.now events.now) self.new }
    {
        self.put(word); // the command's word
        self.put_fields(events);
        self.put_end();
    }

    // Puts the line of a word and a number. Over numbers and events alike, a contract would have to say what `Into<u64>` gives of each.
    final fn put_number(&mut self, word: &[u8], n: u64)
        requires { fits self.old (length (line_from word.now (n ∷ []))) }
        ensures { puts self.old (line_from word.now (n ∷ [])) self.new }
    {
        self.put(word);
        self.put_field(n);
        self.put_end();
    }

    // Puts the line of a word and two numbers.
    #[tactic(auto, unfolding(crate::specs::Line::numbers_of))]
    final fn put_numbers(&mut self, word: &[u8], a: u64, b: u64)
        requires { fits self.old (length (numbers_of word.now a b)) }
        ensures { puts self.old (numbers_of word.now a b) self.new }
    {
        self.put(word);
        self.put_field(a);
        self.put_field(b);
        self.put_end();
    }
}

// How many bytes were put.
#[derive(Clone, Copy, Debug, PartialEq, Eq)]
pub struct Count {
    pub bytes: usize,
}

impl Sink for Count {
    ghost fits = { count_fits };

    ghost puts = { Counts };

    ghost laws = { count_laws };

    fn put(&mut self, word: &[u8]) {
        self.bytes += word.len();
    }

    fn put_digits(&mut self, n: u64) {
        self.bytes += decimal::count_digits(n);
    }

    // One sum a field, which is faster than two.
    fn put_field(&mut self, n: u64) {
        self.bytes += 1 + decimal::count_digits(n);
    }
}

// A lent buffer, with how many bytes at its front are written.
#[derive(Drop)]
pub struct Front<'a> {
    pub out: &'a mut [u8],
    pub at: usize,
}

impl Sink for Front<'_> {
    ghost fits = { front_fits };

    ghost puts = { Fronts };

    ghost laws = { front_laws };

    fn put(&mut self, word: &[u8]) {
        let end = self.at + word.len();
        self.out[self.at..end].copy_from_slice(word);
        self.at = end;
    }

    fn put_digits(&mut self, n: u64) {
        let at = self.at;
        self.at += decimal::write(n, &mut self.out[at..]);
    }
}

// Writes the line of an index and its events at the front of `out` and gives its length; the rest of `out` keeps its contents.
pub fn write_line(index: u64, events: &[u8], out: &mut [u8]) -> usize
    requires { 21 + 4 * length events.now ≤ length out.old }
    ensures value { result ≡ length (line_of index events.now) }
    ensures out_after { out.new ≡ line_of index events.now ++ drop (length (line_of index events.now)) out.old }
{
    let mut front = Front { out, at: 0 };
    front.put_line(index, events);
    front.at
}

// Writes the line of a word and two numbers at the front of `out` and gives its length; the rest of `out` keeps its contents.
pub fn write_numbers(word: &[u8], a: u64, b: u64, out: &mut [u8]) -> usize
    requires { length word.now + 43 ≤ length out.old }
    ensures value { result ≡ length (numbers_of word.now a b) }
    ensures out_after { out.new ≡ numbers_of word.now a b ++ drop (length (numbers_of word.now a b)) out.old }
{
    let mut front = Front { out, at: 0 };
    front.put_numbers(word, a, b);
    front.at
}
