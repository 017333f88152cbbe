// Why a call is refused; a refused call changes nothing.
ghost use Rattle.std.specs.Prelude.{◌≡◌};
ghost use Rattle.service.specs.declared.refusal.Refusal.TheVariants.{Batch};

use zone::BatchFault;

// A session's number, 0 to 3, a type of its own so that no message ID can be passed for it.
#[derive(Clone, Copy)]
pub struct SessionNumber(pub u64);

#[derive(Clone, Copy)]
pub enum Refusal {
    // Number above 3, or no open session there.
    NoSession,
    // Time below the latest accepted time.
    TimeBackwards,
    // The output slice has less than 65,536 bytes.
    OutputTooShort,
    // Open while all four sessions are open.
    AllOpen,
    // A batch that is not carried out.
    Batch(BatchFault),
    // Message over 65,535 bytes.
    MessageTooLong,
    // At start: the zone's name is no name.
    NotAName,
}

// A batch's fault is the refusal of the batch.
impl From<BatchFault> for Refusal {
    ghost from_gives = { λ fault refusal. refusal ≡ Batch fault };

    fn from(fault: BatchFault) -> Refusal {
        Refusal::Batch(fault)
    }
}
