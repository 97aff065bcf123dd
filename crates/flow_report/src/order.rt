// The flows of all tables in key order.
ghost use Rattle.std.specs.Prelude.{◌≡◌, fold, IfOk, OnOk};
ghost use Rattle.std.specs.BTreeMap.{insert_entry};
ghost use Rattle.packet_fields.specs.Key.{key_cmp};
ghost use Rattle.flow_report.specs.Tables.{all_flows, in_key_order};

use bucket_table::BucketTable;
use flow_work::FlowWork;
use packet_fields::FlowKey;
use rss_base::NoMemory;
use std::alloc::Global;
use std::collections::BTreeMap;

// Adds the flows of a table.
fn add_flows<W: FlowWork>(
    sorted: &mut BTreeMap<FlowKey, W::State>,
    table: &BucketTable<W>,
) -> Result<(), NoMemory>
    ensures { OnOk result (sorted.new.entries ≡
        fold (λ sorted e. insert_entry ⟦<FlowKey as Ord>⟧.cmp sorted e.0 e.1)
        sorted.old.entries table.now.flows) }
{
    let count = table.flow_count();
    for index in 0..count {
        let (key, state) = table.flow(index);
        match sorted.insert(*key, *state) {
            Ok(_) => {}
            Err(_) => return Err(NoMemory),
        }
    }
    Ok(())
}

/// The flows of all tables in key order.
pub fn flows_in_key_order<W: FlowWork>(
    alloc: Global,
    tables: &[BucketTable<W>],
) -> Result<BTreeMap<FlowKey, W::State>, NoMemory>
    ensures { IfOk result (λ sorted. sorted.entries ≡ in_key_order (all_flows tables.now)) }
{
    let mut sorted = BTreeMap::new(alloc);
    for table in tables {
        add_flows(&mut sorted, table)?;
    }
    Ok(sorted)
}
