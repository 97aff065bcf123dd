use handover_words::ShelfSeat;
use load_meter::MeterSeat;
use packet_pool::PoolPass;

/// What a party brings to the shared objects, and takes away again: its pass of the lane, which
/// sends or takes, its seat of the shelf, its pass of the pool, and its seat of the meter.
#[derive(Drop)]
pub struct Side<P, T> {
    pub lane: P,
    pub seat: ShelfSeat<T>,
    pub cells: PoolPass,
    pub load: MeterSeat,
}
