// The output slice that the caller lends: a part for each session.
ghost use Rattle.std.specs.Prelude.{◌*◌, ◌≡◌};
ghost use Rattle.service.specs.Checks.{output_size};

use crate::state::SESSIONS;

// 01: "The caller lends four shelves of 16,384 bytes each, one slice of 65,536; session s writes from s x 16,384."
const OUTPUT: u64 = 16384;

pub const LEAST_OUTPUT: u64 = SESSIONS * OUTPUT;

// Where session i writes from.
pub fn output_at(i: u32) -> usize
    ensures { result ≡ i * output_size }
{
    (u64::from(i) * OUTPUT) as usize
}
