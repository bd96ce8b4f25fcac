// What a line of the input says: a name, a start and an end, or another shape.
ghost use Rattle.std.specs.Prelude.{◌≡◌, ◌+◌, ◌-◌, ◌≤◌, length, drop};
ghost use Rattle.rules.specs.Tests.{each};
ghost use Rattle.rules_coverage.specs.Lines.{not_zero, is_digit, is_name, line_of};
ghost use Rattle.sheet.specs.Lines.{word_length, number_of, parsed_from, line_in, name_length};

// The length of the name, start and end; or another shape, which is 46.
#[derive(Clone, Copy)]
pub enum Parsed {
    Broken,
    Line(usize, u64, u64),
}

#[derive(Clone, Copy)]
pub enum Number {
    Nothing,
    Value(u64),
}

// ---- words
// Where the word that begins at from ends: at the next space, or at the line's end.
fn word_end(line: &[u8], from: usize) -> usize
    requires { from ≤ length line.now }
    ensures { (result ≡ from + word_length (drop from line.now)) × (from ≤ result) × (result ≤ length line.now) }
{
    for i in from..line.len() {
        if line[i] == b' ' {
            return i;
        }
    }
    line.len()
}

// ---- names
fn no_zero(s: &[u8]) -> bool
    ensures { result ≡ each not_zero s.now }
{
    !s.contains(&0)
}

#[tactic(auto, unfolding(rules_coverage::specs::Lines::between, rules_coverage::specs::Lines::is_name))]
fn is_name(s: &[u8]) -> bool
    ensures { result ≡ is_name s.now }
{
    1 <= s.len() && s.len() <= 255 && no_zero(s)
}

// ---- numbers
#[tactic(auto, unfolding(rules_coverage::specs::Lines::between))]
fn is_digit(b: u8) -> bool
    ensures { result ≡ is_digit b }
{
    b.is_ascii_digit()
}

// The value of a digit.
fn digit(b: u8) -> u64
    requires { (48 ≤ b) × (b ≤ 57) }
    ensures { (result ≡ b - 48) × (result ≤ 9) }
{
    (b - b'0') as u64
}

// The number of one to ten digits.
fn read_number(s: &[u8]) -> Number
    ensures { result ≡ number_of s.now }
{
    if s.is_empty() || 10 < s.len() {
        return Number::Nothing;
    }
    let mut v = 0;
    for b in s {
        if !is_digit(*b) {
            return Number::Nothing;
        }
        v = v * 10 + digit(*b);
    }
    Number::Value(v)
}

// ---- a line
// Of three words.
fn parse_words(name: &[u8], start: &[u8], end: &[u8]) -> Parsed
    ensures { result ≡ parsed_from name.now start.now end.now }
{
    if !is_name(name) {
        return Parsed::Broken;
    }
    let Number::Value(a) = read_number(start) else {
        return Parsed::Broken;
    };
    let Number::Value(e) = read_number(end) else {
        return Parsed::Broken;
    };
    Parsed::Line(name.len(), a, e)
}

// What the bytes of a line say, without its newline.
pub fn parse(line: &[u8]) -> Parsed
    ensures { (line_in line.now result ≡ line_of line.now) × (name_length result ≤ length line.now) }
{
    let n = line.len();
    let a = word_end(line, 0);
    if a == n {
        return Parsed::Broken;
    }
    let second = a + 1;
    let b = word_end(line, second);
    if b == n {
        return Parsed::Broken;
    }
    let third = b + 1;
    let c = word_end(line, third);
    if c != n {
        return Parsed::Broken;
    }
    parse_words(&line[..a], &line[second..b], &line[third..c])
}
