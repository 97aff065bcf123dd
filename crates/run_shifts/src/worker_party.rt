use core_queue::TakerPass;
use handover_words::ShelfSeat;
use load_meter::MeterSeat;
use packet_pool::PoolPass;

/// What a shift of a core is given, and gives back: its worker, the passes and seats of its ends,
/// and whether the worker has ended.
#[derive(Drop)]
pub struct WorkerParty<K, T> {
    pub core: u8,
    pub worker: K,
    /// The pass that takes, of the core's own lane.
    pub taker: TakerPass,
    /// The seat of the shelf.
    pub seat: ShelfSeat<T>,
    /// The seat of the meter.
    pub load: MeterSeat,
    /// The pass of the pool.
    pub cells: PoolPass,
    /// Whether the worker has ended.
    pub ended: bool,
}
