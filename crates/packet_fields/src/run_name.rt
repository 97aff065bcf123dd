ghost use Rattle.std.specs.Prelude.{Option, None, List};
ghost use Rattle.packet_fields.specs.declared.packet.PacketInfo.{PacketInfo};

/// Names the packets of one run, or none. A type parameter with this bound lets contracts speak of
/// a run's packets where no value of the program holds them. It has no call: no code sees what a
/// type names, so what is proved for every name holds of every run.
pub trait RunName {
    /// The packets of the run in the order of the capture, where the type names them.
    ghost packets: { Option (List PacketInfo) };
}

/// Names no packets.
#[derive(Clone, Copy, Debug)]
pub struct NoName;

impl RunName for NoName {
    ghost packets = { None };
}

#[cfg(test)]
mod tests;
