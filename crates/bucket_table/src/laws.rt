// Laws of the keys in the order of their first packets, and of the words of their hash.
ghost use Rattle.std.specs.Prelude.{◌≡◌, ◌++◌, List, true};
ghost use Rattle.std.specs.List.{IsDistinct, list_any};
ghost use Rattle.packet_fields.specs.declared.key.FlowKey.{FlowKey};
ghost use Rattle.packet_fields.specs.declared.packet.PacketInfo.{PacketInfo};
ghost use Rattle.bucket_table.specs.FirstKeys.{same_key, first_keys};
ghost use Rattle.bucket_table.specs.FlowHash.{flow_words};

/// The keys of a list of packets in the order of their first packets: each stands there once, they
/// are the packets' keys and no others, and those of a front of the list come first.
pub fn keys_by_first_packet()
    ensures once { (packets : List PacketInfo) → IsDistinct same_key (first_keys packets) }
    ensures among { (key : FlowKey) (packets : List PacketInfo) →
        list_any (same_key key) (first_keys packets) ≡ list_any (λ p. same_key key p.key) packets }
    ensures front { (front rest : List PacketInfo) →
        (more : List FlowKey) × (first_keys (front ++ rest) ≡ first_keys front ++ more) }
    ensures exact { (a b : FlowKey) → same_key a b ≡ true → a ≡ b }
{}

/// Flows with the same words for their hash are one flow, so the words of two flows differ.
pub fn words_tell_flows_apart()
    ensures { (a b : FlowKey) → flow_words a ≡ flow_words b → a ≡ b }
{}
