// A line's bytes as its form: the word, and the numbers of its fields.
#![tactic(auto)]

ghost use Rattle.std.specs.Prelude.{◌≡◌, false, List, [], ◌∷◌, ℕ, ◌+◌, ◌≤◌, ◌<◌, ◌^◌, min, ℤ, length, take, drop, MatchBool, MatchOption};
ghost use Rattle.lists.specs.Lists.{index_of};
ghost use Rattle.promises.specs.Text.{Line, rig, ord, begins, mon, gap, reply, bal, day, continues, go, stop, amp, opens, end_or, one, two, three, four, two_signed, then_signed, one_or_two, any_number, bytes};
ghost use Rattle.promises.specs.Text as text;
ghost use Rattle.decoding.specs.Forms.{value_of, left_of, FieldBy, LastBy, over, leading, listed_in, form_of};

use std::marker::Model;

// A line that begins a monitor, with its numbers: `mon`, S and the start; `gap`, e, n; `reply`, a, b, lo, hi; `bal`, lo, hi; `day`, T.
#[derive(Clone, Copy, Debug, PartialEq, Eq)]
pub enum Kind {
    Mon(usize, usize),
    Gap(usize, usize),
    Reply(usize, usize, usize, usize),
    Bal(i64, i64),
    Day(usize),
}

// A line of the latest monitor, with its numbers: `go`, s, e, t; `stop`, s; `amp`, e, d; `open`, e, a, b.
#[derive(Clone, Copy, Debug, PartialEq, Eq)]
pub enum Part {
    Go(usize, usize, usize),
    Stop(usize),
    Amp(usize, i64),
    Open(usize, usize, usize),
}

// A line's form. `Ord` has how many events are listed; the events themselves are left in a lent list.
#[derive(Clone, Copy, Debug, PartialEq, Eq)]
pub enum Form {
    Rig(usize),
    Ord(usize),
    Begins(Kind),
    Continues(Part),
}

// What stands before the first byte b, and what after it; none where there is no b.
pub fn split_at_byte(s: &[u8], b: u8) -> Option<(&[u8], &[u8])>
    ensures { MatchOption result (length s.now ≤ index_of s.now b) (λ p. (index_of s.now b < length s.now) × (p.0.now ≡ take (index_of s.now b) s.now) × (p.1.now ≡ drop (index_of s.now b + 1) s.now)) }
{
    let i = s.iter().position(|x| *x == b)?;
    Some((&s[..i], &s[i + 1..]))
}

// The number that at most five digits make.
fn digits_value(field: &[u8]) -> Option<usize>
    requires { length field.now ≤ 5 }
    ensures { value_of result ≡ text.digits_value 0 field.now }
{
    let mut n = 0;
    for b in field {
        if !b.is_ascii_digit() {
            return None;
        }
        n = 10 * n + usize::from(*b - b'0');
    }
    Some(n)
}

// 'A number is one to five digits, no leading zero except 0 itself.'
pub fn number(field: &[u8]) -> Option<usize>
    ensures { value_of result ≡ text.number field.now }
{
    match field.len() {
        0 => None, // an empty field
        1 => digits_value(field),
        2..=5 if field[0] == b'0' => None, // a leading zero
        2..=5 => digits_value(field),
        _ => None, // more than five digits
    }
}

// 'a minus sign, byte 45, may come before a nonzero number; any other is 2'
fn signed(field: &[u8]) -> Option<i64>
    ensures { value_of result ≡ text.signed field.now }
{
    let Some(digits) = field.strip_prefix(b"-") else {
        return Some(number(field)? as i64);
    };
    match number(digits)? {
        0 => None, // -0
        n => Some(-(n as i64)),
    }
}

// The fields of a line that are still to be read.
#[derive(Drop)]
struct Fields<'a> {
    rest: Option<&'a [u8]>,
}

impl<'a> Model for Fields<'a> {
    ghost Value = { List (List ℕ) };

    ghost view = { λ f. left_of f.rest };
}

impl<'a> Fields<'a> {
    // The next field, if one is left.
    fn next(&mut self) -> Option<&'a [u8]>
        ensures { MatchOption result ((self.old ≡ []) × (self.new ≡ [])) (λ f. self.old ≡ f.now ∷ self.new) }
    {
        let rest = self.rest?;
        match split_at_byte(rest, b'\t') {
            Some((field, more)) => {
                self.rest = Some(more);
                Some(field)
            }
            None => {
                self.rest = None;
                Some(rest)
            }
        }
    }

    // The first field, where another follows it.
    fn first(&mut self) -> Option<&'a [u8]>
        ensures { MatchOption result (length self.old ≤ 1) (λ f. self.old ≡ f.now ∷ self.new) }
    {
        let (field, more) = split_at_byte(self.rest?, b'\t')?;
        self.rest = Some(more);
        Some(field)
    }

    // A number that another field follows. (This and the three after it are a line each; one for all would take the reading of a field as a closure.)
    fn number(&mut self) -> Option<usize>
        ensures { FieldBy text.number self.old result self.new }
    {
        number(self.first()?)
    }

    // A signed number that another field follows.
    fn signed(&mut self) -> Option<i64>
        ensures { FieldBy text.signed self.old result self.new }
    {
        signed(self.first()?)
    }

    // The number that is the only field left: no number has a byte 9, so it is read of all that is left.
    fn last_number(&self) -> Option<usize>
        ensures { LastBy text.number self.now result }
    {
        number(self.rest?)
    }

    // The signed number that is the only field left, likewise.
    fn last_signed(&self) -> Option<i64>
        ensures { LastBy text.signed self.now result }
    {
        signed(self.rest?)
    }

    // Whether no field is left, said by what `end_or` makes of the fields, so that `mon_form` needs no proof of its own.
    fn is_empty(&self) -> bool
        ensures { MatchBool result ((l : Line) → (more : List (List ℕ) → Line) → end_or l more self.now ≡ l) ((l : Line) → (more : List (List ℕ) → Line) → end_or l more self.now ≡ more self.now) }
    {
        self.rest.is_none()
    }
}

// `rig`, E
#[tactic(auto, unfolding(promises::specs::Text::one, promises::specs::Text::field))]
fn rig_form(fields: &mut Fields) -> Option<Form>
    ensures { result ≡ form_of (one (λ E. rig E) fields.old) }
{
    let e = fields.last_number()?;
    Some(Form::Rig(e))
}

// `mon`, S, start; or `mon`, S, which starts in 0
#[tactic(auto, unfolding(promises::specs::Text::one_or_two, promises::specs::Text::end_or, promises::specs::Text::one, promises::specs::Text::field))]
fn mon_form(fields: &mut Fields) -> Option<Form>
    ensures { result ≡ form_of (one_or_two (λ S. begins (mon S 0)) (λ S a. begins (mon S a)) fields.old) }
{
    let s = number(fields.next()?)?;
    if fields.is_empty() {
        return Some(Form::Begins(Kind::Mon(s, 0)));
    }
    let start = fields.last_number()?;
    Some(Form::Begins(Kind::Mon(s, start)))
}

// `go`, s, e, t
#[tactic(auto, unfolding(promises::specs::Text::three, promises::specs::Text::two, promises::specs::Text::one, promises::specs::Text::field))]
fn go_form(fields: &mut Fields) -> Option<Form>
    ensures { result ≡ form_of (three (λ s e t. continues (go s e t)) fields.old) }
{
    let s = fields.number()?;
    let e = fields.number()?;
    let t = fields.last_number()?;
    Some(Form::Continues(Part::Go(s, e, t)))
}

// `gap`, e, n
#[tactic(auto, unfolding(promises::specs::Text::two, promises::specs::Text::one, promises::specs::Text::field))]
fn gap_form(fields: &mut Fields) -> Option<Form>
    ensures { result ≡ form_of (two (λ e n. begins (gap e n)) fields.old) }
{
    let e = fields.number()?;
    let n = fields.last_number()?;
    Some(Form::Begins(Kind::Gap(e, n)))
}

// `reply`, a, b, lo, hi
#[tactic(auto, unfolding(promises::specs::Text::four, promises::specs::Text::three, promises::specs::Text::two, promises::specs::Text::one, promises::specs::Text::field))]
fn reply_form(fields: &mut Fields) -> Option<Form>
    ensures { result ≡ form_of (four (λ a b lo hi. begins (reply a b lo hi)) fields.old) }
{
    let a = fields.number()?;
    let b = fields.number()?;
    let lo = fields.number()?;
    let hi = fields.last_number()?;
    Some(Form::Begins(Kind::Reply(a, b, lo, hi)))
}

// `bal`, lo, hi
#[tactic(auto, unfolding(promises::specs::Text::two_signed, promises::specs::Text::one_signed, promises::specs::Text::field))]
fn bal_form(fields: &mut Fields) -> Option<Form>
    ensures { result ≡ form_of (two_signed (λ lo hi. begins (bal lo hi)) fields.old) }
{
    let lo = fields.signed()?;
    let hi = fields.last_signed()?;
    Some(Form::Begins(Kind::Bal(lo, hi)))
}

// `amp`, e, d
#[tactic(auto, unfolding(promises::specs::Text::then_signed, promises::specs::Text::one_signed, promises::specs::Text::field))]
fn amp_form(fields: &mut Fields) -> Option<Form>
    ensures { result ≡ form_of (then_signed (λ e d. continues (amp e d)) fields.old) }
{
    let e = fields.number()?;
    let d = fields.last_signed()?;
    Some(Form::Continues(Part::Amp(e, d)))
}

// `stop`, s
#[tactic(auto, unfolding(promises::specs::Text::one, promises::specs::Text::field))]
fn stop_form(fields: &mut Fields) -> Option<Form>
    ensures { result ≡ form_of (one (λ s. continues (stop s)) fields.old) }
{
    let s = fields.last_number()?;
    Some(Form::Continues(Part::Stop(s)))
}

// `day`, T
#[tactic(auto, unfolding(promises::specs::Text::one, promises::specs::Text::field))]
fn day_form(fields: &mut Fields) -> Option<Form>
    ensures { result ≡ form_of (one (λ T. begins (day T)) fields.old) }
{
    let t = fields.last_number()?;
    Some(Form::Begins(Kind::Day(t)))
}

// `open`, e, a, b
#[tactic(auto, unfolding(promises::specs::Text::three, promises::specs::Text::two, promises::specs::Text::one, promises::specs::Text::field))]
fn open_form(fields: &mut Fields) -> Option<Form>
    ensures { result ≡ form_of (three (λ e a b. continues (opens e a b)) fields.old) }
{
    let e = fields.number()?;
    let a = fields.number()?;
    let b = fields.last_number()?;
    Some(Form::Continues(Part::Open(e, a, b)))
}

// A number as a byte: 255, which is no event, where it is larger, as `over` has it.
fn as_byte(n: usize) -> u8
    ensures { result ≡ min n 255 }
{
    n.min(255) as u8
}

// `ord` and any number of numbers. `order` gets those that it has room for.
fn ord_form(fields: &mut Fields, order: &mut [u8]) -> Option<Form>
    requires { length fields.old < 2 ^ 64 }
    ensures value { result ≡ form_of (any_number (λ es. ord es) fields.old) }
    ensures order_after { order.new ≡ over (leading fields.old) order.old }
{
    // Counted by hand, past the room of `order` too: `Fields` is no iterator, whose laws would be shown for this loop alone.
    let mut count = 0;
    while let Some(field) = fields.next() {
        let e = number(field)?;
        if count < order.len() {
            order[count] = as_byte(e);
        }
        count += 1;
    }
    Some(Form::Ord(count))
}

// The form of a line with fields, by its word, which is not `ord`. (Tests by `==`: of a `match` on byte strings a proof learns the length alone.)
fn word_form(word: &[u8], fields: &mut Fields) -> Option<Form>
    requires { text.same word.now (bytes "ord") ≡ false }
    ensures { result ≡ form_of (text.form (word.now ∷ fields.old)) }
{
    if word == b"go".as_slice() {
        return go_form(fields);
    }
    if word == b"stop".as_slice() {
        return stop_form(fields);
    }
    if word == b"amp".as_slice() {
        return amp_form(fields);
    }
    if word == b"open".as_slice() {
        return open_form(fields);
    }
    if word == b"mon".as_slice() {
        return mon_form(fields);
    }
    if word == b"gap".as_slice() {
        return gap_form(fields);
    }
    if word == b"reply".as_slice() {
        return reply_form(fields);
    }
    if word == b"bal".as_slice() {
        return bal_form(fields);
    }
    if word == b"day".as_slice() {
        return day_form(fields);
    }
    if word == b"rig".as_slice() {
        return rig_form(fields);
    }
    None
}

// The form that a line is, if it is one. The numbers of an `ord` line, up to a field that is none, are written over the front of `order`, as bytes.
pub fn decode(line: &[u8], order: &mut [u8]) -> Option<Form>
    ensures value { result ≡ form_of (text.decode line.now) }
    ensures order_after { order.new ≡ over (listed_in line.now) order.old }
{
    let mut fields = Fields { rest: Some(line) };
    let word = fields.next()?;
    if word == b"ord".as_slice() {
        return ord_form(&mut fields, order);
    }
    word_form(word, &mut fields)
}
