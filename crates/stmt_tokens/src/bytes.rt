ghost use Rattle.std.specs.Prelude.{◌≡◌, ◌≤◌, ◌+◌, drop, length, IsTrue};
ghost use Rattle.stmt_tokens.specs.Tokens as spec;

pub fn is_blank(b: u8) -> bool
    ensures { result ≡ spec.is_blank b }
{
    b == b' ' || b == b'\t'
}

pub fn is_digit(b: u8) -> bool
    ensures { result ≡ spec.is_digit b }
{
    b'0' <= b && b <= b'9'
}

pub fn is_letter(b: u8) -> bool
    ensures { result ≡ spec.is_letter b }
{
    (b'A' <= b && b <= b'Z') || (b'a' <= b && b <= b'z') || b == b'_'
}

fn is_word_byte(b: u8) -> bool
    ensures { result ≡ spec.is_word_byte b }
{
    is_letter(b) || is_digit(b)
}

fn is_hex(b: u8) -> bool
    ensures { result ≡ spec.is_hex b }
{
    is_digit(b) || (b'A' <= b && b <= b'F') || (b'a' <= b && b <= b'f')
}

pub fn word_len(rest: &[u8]) -> usize
    ensures value { result ≡ spec.word_len rest.now }
    ensures within { result ≤ length rest.now }
{
    rest.iter().take_while(|b| is_word_byte(**b)).count()
}

pub fn digits_len(rest: &[u8]) -> usize
    ensures value { result ≡ spec.digits_len rest.now }
    ensures within { result ≤ length rest.now }
{
    rest.iter().take_while(|b| is_digit(**b)).count()
}

pub fn hex_len(rest: &[u8]) -> usize
    ensures value { result ≡ spec.hex_len rest.now }
    ensures within { result ≤ length rest.now }
{
    rest.iter().take_while(|b| is_hex(**b)).count()
}

/// Whether a number begins with this byte and what follows.
pub fn is_number(b: u8, rest: &[u8]) -> bool
    ensures { result ≡ spec.is_number b rest.now }
{
    is_digit(b) || (b == b'-' && opens_digits(rest))
}

fn opens_digits(rest: &[u8]) -> bool
    ensures { result ≡ spec.opens spec.is_digit rest.now }
{
    match rest {
        [b, ..] => is_digit(*b),
        [] => false,
    }
}

fn opens_quote(rest: &[u8]) -> bool
    ensures { result ≡ spec.opens spec.is_quote rest.now }
{
    match rest {
        [b, ..] => *b == b'\'',
        [] => false,
    }
}

/// Whether bytes begin with this byte and what follows.
pub fn is_bytes(b: u8, rest: &[u8]) -> bool
    ensures value { result ≡ spec.is_bytes b rest.now }
    ensures within { IsTrue result → spec.hex_len (drop 1 rest.now) + 2 ≤ length rest.now }
{
    let [quote, more @ ..] = rest else {
        return false;
    };
    if (b != b'x' && b != b'X') || *quote != b'\'' {
        return false;
    }
    let len = hex_len(more);
    len % 2 == 0 && opens_quote(more.split_at(len).1)
}
