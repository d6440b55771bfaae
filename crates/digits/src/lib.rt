// Hexadecimal digits: one digit read, in either case, and written, in upper case; and numbers of several digits, big end first.
#![tactic(auto)]

ghost use Rattle.std.specs.Prelude.{◌≡◌};
ghost use Rattle.digits.specs.Digits.{digit_value, digit_byte, number, with_digits};

mod numbers;

// The value of a digit byte of either case; 16 for a byte that is no digit.
// 16 and no Option: what is promised of every byte is one number, which the laws of digits add up (digits, Digits).
pub fn digit_value(byte: u8) -> u8
    ensures { result ≡ digit_value byte }
{
    match byte {
        b'0'..=b'9' => byte - b'0',
        b'A'..=b'F' => byte - b'A' + 10,
        b'a'..=b'f' => byte - b'a' + 10,
        _ => 16,
    }
}

// The byte of a digit's value; of a larger number, the byte of its last digit.
pub fn digit_byte(value: u8) -> u8
    ensures { result ≡ digit_byte value }
{
    let last = value % 16;
    if last < 10 {
        b'0' + last
    } else {
        b'A' + (last - 10)
    }
}

// The number that two digits at an offset say.
// Two functions and not one for any count: a public function asks for nothing, and the number of more than six digits need not fit.
pub fn two_digits(bytes: &[u8], at: u32) -> u32
    ensures { result ≡ number bytes.now at 2 }
{
    numbers::number(bytes, at as usize, 2)
}

// The number that six digits at an offset say.
pub fn six_digits(bytes: &[u8], at: u32) -> u32
    ensures { result ≡ number bytes.now at 6 }
{
    numbers::number(bytes, at as usize, 6)
}

// Writes the last `count` digits of a value from an offset on; where there is no room for them it writes nothing.
pub fn put_digits(out: &mut [u8], at: usize, count: usize, value: u32)
    ensures { out.new ≡ with_digits at count value out.old }
{
    if count <= out.len() {
        if at <= out.len() - count {
            let end = at + count;
            numbers::fill(&mut out[at..end], value);
        }
    }
}
