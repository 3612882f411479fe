//! `packet` and `packet2` read one packet, which must be the whole input.
ghost use Rattle.std.specs.Prelude.{◌≡◌, IfOk};
ghost use Rattle.octets.specs.Cursor.{position};
ghost use Rattle.octets_tool.specs.Output.{packet_output, shown, IsPacketOutput};
ghost use Rattle.octets_tool.specs.Packets.{shown as fields_or_fault, OneByte, ShortestVarint};
ghost use Rattle.octets_tool.specs.Requests.{OrRefused};

use crate::hex::Hex;
use crate::output::Output;
use crate::packet::{Packet, PacketFault, read_packet, read_packet2};
use std::alloc::{AllocError, Global};

/// Returns the whole output of `packet` for an input. It fails only if an allocation fails.
pub fn output(alloc: Global, input: &[u8]) -> Result<Output, AllocError>
    ensures { OrRefused result (λ output. IsPacketOutput OneByte input.now (shown output)) }
{
    line_of(alloc, read_packet(input))
}

/// Returns the whole output of `packet2` for an input. It fails only if an allocation fails.
pub fn output2(alloc: Global, input: &[u8]) -> Result<Output, AllocError>
    ensures { OrRefused result (λ output. IsPacketOutput ShortestVarint input.now (shown output)) }
{
    line_of(alloc, read_packet2(input))
}

/// Returns the line for the result of reading a packet.
fn line_of(alloc: Global, packet: Result<Packet<'_>, PacketFault>) -> Result<Output, AllocError>
    requires { IfOk packet (λ p. position p.payload ≡ 0) }
    ensures { OrRefused result (λ output.
        shown output ≡ packet_output (fields_or_fault packet.entry)) }
{
    match packet {
        Ok(packet) => {
            let (kind, number) = (packet.kind, packet.number);
            let payload = Hex(packet.payload.as_ref());
            let text = format!(in alloc; "kind {kind} number {number} payload {payload}\n")?;
            Ok(Output::answered(text))
        }
        Err(PacketFault::Refused(offset)) => {
            let text = format!(in alloc; "refused at {offset}\n")?;
            Ok(Output::refused(text))
        }
        Err(PacketFault::Trailing(count)) => {
            let text = format!(in alloc; "trailing {count}\n")?;
            Ok(Output::refused(text))
        }
    }
}
