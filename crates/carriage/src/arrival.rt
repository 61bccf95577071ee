// What arrived by a carriage.
ghost use Rattle.std.specs.Prelude.{◌≡◌};
ghost use Rattle.steps.specs.Hearing.{message};

// Kept: a byte and no enum, since the message table is bytes of the C interface and `message`, `heard`
// and `received` speak of 0, 1 and 2.
// The byte of this number: 0 and 1 as they are, any other as 2. Silence means open: a missing one is 0.
pub fn message(bytes: &[u8], number: usize) -> u8
    ensures { result ≡ message bytes.now number }
{
    if bytes.len() <= number {
        return 0;
    }
    let byte = bytes[number];
    if byte < 2 {
        return byte;
    }
    2
}
