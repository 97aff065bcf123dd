// Laws of the buckets.
ghost use Rattle.std.specs.Prelude.{◌≡◌, ℕ, ◌<◌, ◌++◌, ◌∷◌, List, length, All, Some, slice_get};
ghost use Rattle.std.specs.List.{range_with_len, sum_by};
ghost use Rattle.packet_fields.specs.declared.packet.PacketInfo.{PacketInfo};
ghost use Rattle.toeplitz.specs.declared.key.Key.{Key};
ghost use Rattle.toeplitz.specs.Bucket.{bucket_of, packets_in, total_in, place_of};

/// Each packet is in one bucket. Where there are buckets, a packet's bucket is one of them, and its
/// flow alone decides which. The packets in a bucket have no other bucket, a packet stands among
/// those of its bucket at its place, and all buckets together have all packets.
pub fn one_bucket_each()
    ensures below { (key : Key) (buckets : ℕ) (packet : PacketInfo) → 0 < buckets → bucket_of key buckets packet < buckets }
    ensures flow { (key : Key) (buckets : ℕ) (a b : PacketInfo) → a.key ≡ b.key → bucket_of key buckets a ≡ bucket_of key buckets b }
    ensures only { (key : Key) (buckets bucket : ℕ) (packets : List PacketInfo) → All (λ packet. bucket_of key buckets packet ≡ bucket) (packets_in key buckets bucket packets) }
    ensures place { (key : Key) (buckets : ℕ) (before after : List PacketInfo) (packet : PacketInfo) → slice_get (packets_in key buckets (bucket_of key buckets packet) (before ++ packet ∷ after)) (place_of key buckets before packet) ≡ Some packet }
    ensures totals { (key : Key) (buckets : ℕ) (packets : List PacketInfo) → 0 < buckets → sum_by (λ bucket. total_in key buckets bucket packets) (range_with_len 0 buckets) ≡ length packets }
{}
