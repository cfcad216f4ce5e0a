//! The classes of bytes that the formats share.

ghost use Rattle.std.specs.Prelude.{◌≡◌};
ghost use Rattle.at_text.specs.Texts.{is_space as space_test, is_digit as digit_test, is_run as run_test};

/// Whether the byte is JSON's white space: space, tab, line feed or carriage return (RFC 8259 section 2).
pub fn is_space(b: u8) -> bool
    ensures { result ≡ space_test b }
{
    b == b' ' || b == b'\t' || b == b'\n' || b == b'\r'
}

/// Whether the byte is a decimal digit.
pub fn is_digit(b: u8) -> bool
    ensures { result ≡ digit_test b }
{
    b'0' <= b && b <= b'9'
}

/// Whether the byte can stand in a literal or a number of JSON as far as its class tells: it is no white
/// space, bracket, comma, colon or quote (RFC 8259 section 2).
pub fn is_run(b: u8) -> bool
    ensures { result ≡ run_test b }
{
    !is_space(b)
        && b != b'{'
        && b != b'}'
        && b != b'['
        && b != b']'
        && b != b','
        && b != b':'
        && b != b'"'
}
