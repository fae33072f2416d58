//! Refused PDUs.
ghost use Rattle.std.specs.Prelude.{◌≡◌, IfOk, OnErr};
ghost use Rattle.rtr_pdu.specs.declared.pdu.PduFault.TheVariants.{NoMemory as OutOfMemory};
ghost use Rattle.connection_calls.specs.Refusals.{IsCauseOf};

use av_base::NoMemory;
use report_text::Cause;
use rtr_pdu::PduFault;

/// The cause of a refused PDU, 15 to 18 or 43; want of memory is none.
pub fn refusal(fault: PduFault) -> Result<Cause, NoMemory>
    ensures cause { IfOk result (λ cause. IsCauseOf fault cause) }
    ensures err { OnErr result (fault ≡ OutOfMemory) }
{
    match fault {
        PduFault::PduVersion => Ok(Cause::PduVersion),
        PduFault::PduLength => Ok(Cause::PduLength),
        PduFault::PduType => Ok(Cause::PduType),
        PduFault::NoProviders => Ok(Cause::PduNoProviders),
        PduFault::PrefixRecord => Ok(Cause::PrefixRecord),
        PduFault::NoMemory => Err(NoMemory),
    }
}
