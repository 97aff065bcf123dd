ghost use Rattle.std.specs.Prelude.{◌≡◌, ℕ, map, IfOk, Option, List, []};
ghost use Rattle.pcap_reader.specs.Reading.{Reading};
ghost use Rattle.core_queue.specs.declared.history.LaneHistory.{LaneHistory};
ghost use Rattle.handover_words.specs.declared.history.ShelfHistory.{ShelfHistory};
ghost use Rattle.load_meter.specs.declared.history.LoadHistory.{LoadHistory};
ghost use Rattle.packet_fields.specs.declared.packet.PacketInfo.{PacketInfo};
ghost use Rattle.dispatch_loop.specs.Accepted.{IsAccepted};
ghost use Rattle.dispatch_loop.specs.Terms.{terms_of};
ghost use Rattle.dispatch_loop.specs.Past.{past};
ghost use Rattle.dispatch_loop.specs.DispatcherState.{dispatcher_state_by};
ghost use Rattle.dispatch_loop.specs.DispatcherSnapshot.{dispatcher_with};
ghost use Rattle.dispatch_loop.specs.Tied.{Tied};
ghost use Rattle.dispatch_loop.specs.Rules.{IsTurn, OnlyMeets};
ghost use Rattle.dispatch_loop.specs.Stays.{StaysTied, IsTied};
ghost use Rattle.dispatch_loop.specs.Fresh.{fresh_dispatcher_state, AreFresh};
ghost use Rattle.dispatch_loop.specs.Fit.{IsPolicyOf};

use crate::state::State;
use crate::turn::turn_of;
use crate::{DispatcherTurn, Options};
use balancer::Policy;
use core_queue::LaneOut;
use flow_work::FlowWork;
use handover_words::{Shelf, Shelved};
use indirection::Journal;
use load_meter::ReadLoad;
use packet_fields::RunName;
use packet_pool::Pool;
use pcap_reader::Reader;
use rss_base::{NoMemory, Source};
use std::alloc::Global;
use std::marker::{Model, PhantomData};

/// The dispatcher of a run: it reads packets, sends each to the core that owns its bucket, and
/// moves buckets. Which packets it sent is held by nobody: the clauses of its turns speak of each
/// list of packets that its journal and its lanes go with.
#[derive(Drop)]
pub struct Dispatcher<W: FlowWork, B: Policy> {
    state: State<B>,
    work: PhantomData<W>,
}

impl<W: FlowWork, B: Policy> Model for Dispatcher<W, B> {
    ghost use Rattle.dispatch_loop.specs.DispatcherState.{DispatcherView};
    ghost use Rattle.dispatch_loop.specs.Sends.{IsLoneLink};
    ghost use Rattle.dispatch_loop.specs.Views.{view_of};
    ghost use Rattle.dispatch_loop.specs.Fit.{IsFit};

    ghost Value = { DispatcherView };

    ghost view = { λ d. view_of d.state };

    ghost invariant = { λ d. IsFit B.stated B.proposals d.state × IsLoneLink d.state.spare };
}

impl<W: FlowWork, B: Policy> Dispatcher<W, B> {
    /// A dispatcher with these options, for the work that its turns are lent. Its rounds go by the
    /// policy, which proposes what that of the options' name does. It takes the memory for all
    /// orders of the journal.
    pub fn new(alloc: Global, options: &Options, policy: B) -> Result<Dispatcher<W, B>, NoMemory>
        requires accepted { IsAccepted options.now }
        requires policy { IsPolicyOf options.now (B.stated policy) B.proposals }
        ensures fresh { IfOk result (λ d. dispatcher_state_by W.cost_of d ≡ fresh_dispatcher_state (terms_of W.cost_of options.now)) }
        ensures tied { IfOk result (λ d. (packets : Option (List PacketInfo)) (bytes : Option (List ℕ)) (lanes : List LaneHistory) (shelf : ShelfHistory) (meter : LoadHistory) (reader : Reading) (left : Option (List ℕ))
            → AreFresh packets bytes (terms_of W.cost_of options.now) lanes shelf meter reader left → Tied packets (past bytes []) (dispatcher_state_by W.cost_of d) lanes shelf meter reader left) }
    {
        let state = State::new(alloc, options, policy)?;
        Ok(Dispatcher {
            state,
            work: PhantomData,
        })
    }

    /// Does the first of these that is due: the round of this position, which goes into the
    /// journal; the next of its proposals, and then of the orders of this position; the next
    /// packet; an End, once the stream has ended; nothing, once each core got its End. A
    /// dispatcher that can't note a round for want of memory makes none from then on, goes on with
    /// the turn, and is [`Dispatcher::short`].
    pub fn turn<
        N: RunName,
        S: Source,
        LO: LaneOut<N>,
        T: Shelved<N>,
        H: Shelf<T, N>,
        P: Pool,
        M: ReadLoad,
    >(
        &mut self,
        work: &W,
        reader: &mut Reader,
        source: &mut S,
        lanes: &mut [LO],
        shelf: &mut H,
        pool: &mut P,
        meter: &mut M,
    ) -> DispatcherTurn
        requires { IsTied N.packets (dispatcher_with LO.LaneEnd P.Pool H.Shelf M.LoadEnd S.Source (dispatcher_state_by W.cost_of self.old) lanes.old pool.old shelf.old meter.old reader.old source.old) }
        ensures tied { StaysTied N.packets result (dispatcher_with LO.LaneEnd P.Pool H.Shelf M.LoadEnd S.Source (dispatcher_state_by W.cost_of self.old) lanes.old pool.old shelf.old meter.old reader.old source.old) (dispatcher_with LO.LaneEnd P.Pool H.Shelf M.LoadEnd S.Source (dispatcher_state_by W.cost_of self.new) lanes.new pool.new shelf.new meter.new reader.new source.new) }
        ensures rule { IsTurn (dispatcher_with LO.LaneEnd P.Pool H.Shelf M.LoadEnd S.Source (dispatcher_state_by W.cost_of self.old) lanes.old pool.old shelf.old meter.old reader.old source.old) result (dispatcher_with LO.LaneEnd P.Pool H.Shelf M.LoadEnd S.Source (dispatcher_state_by W.cost_of self.new) lanes.new pool.new shelf.new meter.new reader.new source.new) }
        ensures homes { (map LO.home lanes.new ≡ map LO.home lanes.old) × (P.home pool.new ≡ P.home pool.old) × (H.home shelf.new ≡ H.home shelf.old) × (M.home meter.new ≡ M.home meter.old) }
        ensures shelf { OnlyMeets (H.history shelf.old) (H.history shelf.new) }
        ensures origin { S.origin source.new ≡ S.origin source.old }
    {
        turn_of::<N, W, B, S, LO, T, H, P, M>(
            work,
            &mut self.state,
            reader,
            source,
            lanes,
            shelf,
            pool,
            meter,
        )
    }

    /// The journal so far.
    pub fn journal(&self) -> &Journal
        ensures { result.now ≡ self.now.journal }
    {
        &self.state.journal
    }

    /// The journal, handed over.
    pub fn into_journal(self) -> Journal
        ensures { result ≡ self.journal }
    {
        self.state.journal
    }

    /// Whether memory was refused to the journal, which isn't lawful then.
    pub fn short(&self) -> bool
        ensures { result ≡ self.now.short }
    {
        self.state.rounds.short
    }
}
