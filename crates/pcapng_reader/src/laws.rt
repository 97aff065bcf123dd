// Laws of the definition of a pcapng capture.
ghost use Rattle.std.specs.Prelude.{◌≡◌, ℕ, List, Option};
ghost use Rattle.pcapng_reader.specs.declared.fault.NgBreak.{NgBreak};
ghost use Rattle.pcapng_reader.specs.Blocks.{Packet, story_of};
ghost use Rattle.pcapng_reader.specs.Reading.{Reads};

/// Each list of bytes has exactly one list of packets, and exactly one end or first break behind
/// them: those of its story.
pub fn one_story()
    ensures each { (bytes : List ℕ) → Reads bytes (story_of bytes).packets (story_of bytes).broken }
    ensures one { (bytes : List ℕ) (packets : List Packet) (ending : Option NgBreak) →
        Reads bytes packets ending → (packets ≡ (story_of bytes).packets) × (ending ≡ (story_of bytes).broken) }
{}
