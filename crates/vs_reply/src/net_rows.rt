//! The rows that say how large the nets of each layer are.

ghost use Rattle.std.specs.Prelude.{◌≡◌, ◌<◌, [], ◌∷◌, ◌++◌, codes, length, OnOk};
ghost use Rattle.vs_match.specs.declared.matching.Matching.TheVariants as Matching;
ghost use Rattle.vs_reader.specs.Names.{HaveCounts};
ghost use Rattle.vs_reader.specs.Rows.{fields, line, more_fields};
ghost use Rattle.vs_reply.specs.Network.{WritesLayer, WritesNet, WritesNets, count_fields, rest_fields, size_row};

use std::alloc::Global;
use vs_instance::Instance;
use vs_match::{NetCounts, counts, first_match, full_count, latest_first_match};
use vs_reader::Names;
use vs_rows::Text;
use vs_types::{LayerNo, Memory};

/// Writes the rows that say how large the nets of all layers are. Of each layer, that of its net by first match is the
/// first, and then comes that of its net by latest first match.
pub fn write_nets(
    alloc: Global,
    text: &mut Text,
    instance: &Instance,
    names: &Names,
) -> Result<(), Memory>
    requires { HaveCounts instance.now names.now }
    ensures { OnOk result (WritesNets instance.now names.now text.old text.new) }
{
    for l in 0..instance.layers() {
        write_layer(alloc, text, instance, names, LayerNo(l))?;
    }
    Ok(())
}

/// Writes the rows of a layer's two nets.
fn write_layer(
    alloc: Global,
    text: &mut Text,
    instance: &Instance,
    names: &Names,
    l: LayerNo,
) -> Result<(), Memory>
    requires layer { l.0 < length instance.now.layers }
    requires names { HaveCounts instance.now names.now }
    ensures { OnOk result (WritesLayer instance.now names.now l.0 text.old text.new) }
{
    let layer = names.layer(l);
    let full = full_count(instance, l);
    write_first(alloc, text, instance, layer, l, full)?;
    write_latest(alloc, text, instance, layer, l, full)
}

/// Writes the row of a layer's net by first match.
fn write_first(
    alloc: Global,
    text: &mut Text,
    instance: &Instance,
    layer: &str,
    l: LayerNo,
    full: u64,
) -> Result<(), Memory>
    requires { l.0 < length instance.now.layers }
    ensures { OnOk result (WritesNet
        instance.now layer.now l.0 Matching.First full text.old text.new) }
{
    let net = first_match(alloc, instance, l)?;
    let stay = instance.layer(l).stay;
    write_sizes(text, layer, "first", counts(&net), full, stay)
}

/// Writes the row of a layer's net by latest first match.
fn write_latest(
    alloc: Global,
    text: &mut Text,
    instance: &Instance,
    layer: &str,
    l: LayerNo,
    full: u64,
) -> Result<(), Memory>
    requires { l.0 < length instance.now.layers }
    ensures { OnOk result (WritesNet
        instance.now layer.now l.0 Matching.Latest full text.old text.new) }
{
    let net = latest_first_match(alloc, instance, l)?;
    let stay = instance.layer(l).stay;
    write_sizes(text, layer, "latest", counts(&net), full, stay)
}

/// Writes how large a net is, and how many pairs of trips connect in its layer. Where the layer has a least rest, it
/// also writes what there is in the net for rests.
fn write_sizes(
    text: &mut Text,
    layer: &str,
    net: &str,
    counts: NetCounts,
    full: u64,
    stay: Option<u64>,
) -> Result<(), Memory>
    ensures { OnOk result (text.new ≡ text.old
        ++ line (size_row layer.now net.now counts full stay)) }
{
    begin_sizes(text, layer, net)?;
    write_counts(text, counts)?;
    text.number(full)?;
    write_rests(text, counts, stay)?;
    text.end_row()
}

/// Adds what there is in a net for rests, where the layer has a least rest. That is how many nodes stand for its depot
/// during the day, and how many arcs lead back to it.
fn write_rests(text: &mut Text, counts: NetCounts, stay: Option<u64>) -> Result<(), Memory>
    ensures { OnOk result (text.new ≡ text.old ++ more_fields (rest_fields stay counts)) }
{
    if stay.is_none() {
        return Ok(());
    }
    text.number(counts.line)?;
    text.number(counts.rests)
}

/// Begins the row of a net with its layer and its name.
fn begin_sizes(text: &mut Text, layer: &str, net: &str) -> Result<(), Memory>
    ensures { OnOk result (text.new ≡ text.old
        ++ fields (codes "network" ∷ layer.now ∷ net.now ∷ [])) }
{
    text.begin_row("network")?;
    text.field(layer)?;
    text.field(net)
}

/// Adds the counts of a net to a row.
fn write_counts(text: &mut Text, counts: NetCounts) -> Result<(), Memory>
    ensures { OnOk result (text.new ≡ text.old ++ more_fields (count_fields counts)) }
{
    text.number(counts.nodes)?;
    text.number(counts.waiting)?;
    text.number(counts.deadheads)?;
    text.number(counts.pull_outs)?;
    text.number(counts.pull_ins)?;
    text.number(counts.trips)
}
