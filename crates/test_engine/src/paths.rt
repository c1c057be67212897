//! Least paths in a net of three nodes.

ghost use Rattle.std.specs.Prelude.{◌≡◌, ◌↔◌, ◌≤ℤ◌, pos, length, IfOk, IsTrue, Some};
ghost use Rattle.vs_queue.specs.Keys.{IsBelow};
ghost use Rattle.vs_path.specs.Labels.{IsSmall};
ghost use Rattle.vs_path.specs.Residual.{AllWithin, HasSignRule};
ghost use Rattle.vs_path.specs.PathTree.{HasNoNegativeCycle};
ghost use Rattle.vs_path.specs.Distances.{without_return};

use std::alloc::Global;
use std::test::Fail;
use vs_layer::{Arc, Flow, Net};
use vs_path::{
    Costs, MAX_PATH_ARC_COST, MAX_SEARCH_PRICE, MAX_STEP_COST, NodeHeap, Paths, Reach, Residual,
    Search, Step, distances, sign_rule_leaves_no_negative_cycle,
};

const fn arc(from: u32, to: u32) -> Arc {
    Arc {
        from,
        to,
        cost: 0,
        room: 1,
    }
}

/// The nodes 0, 1 and 2, and four arcs: 0 to 1, 1 to 2, 0 to 2, and back from 2 to 0.
fn three_nodes(alloc: Global) -> Result<Net, Fail>
    ensures nodes { IfOk result (λ net. net.nodes ≡ 3) }
    ensures arcs { IfOk result (λ net. length net.arcs ≡ 4) }
{
    let arcs = vec![in alloc; arc(0, 1), arc(1, 2), arc(0, 2), arc(2, 0)]?;
    Ok(Net::new(alloc, 3, arcs)?)
}

/// What the arcs cost, and how many units have room on them.
fn costs_of(alloc: Global, cost: [i64; 4], room: [u32; 4]) -> Result<Costs, Fail>
    ensures cost { IfOk result (λ costs. length costs.cost.items ≡ 4) }
    ensures room { IfOk result (λ costs. length costs.room.items ≡ 4) }
{
    Ok(Costs {
        cost: Vec::from_slice(alloc, &cost)?,
        room: Vec::from_slice(alloc, &room)?,
    })
}

/// A net with units, costs and rooms on its arcs.
#[derive(Drop)]
struct Example {
    net: Net,
    flow: Flow,
    costs: Costs,
}

/// These nodes and arcs, with units, costs and rooms.
fn made(alloc: Global, units: [u32; 4], cost: [i64; 4], room: [u32; 4]) -> Result<Example, Fail>
    ensures nodes { IfOk result (λ e. e.net.nodes ≡ 3) }
    ensures arcs { IfOk result (λ e. length e.net.arcs ≡ 4) }
    ensures units { IfOk result (λ e. length e.flow.units.items ≡ 4) }
    ensures cost { IfOk result (λ e. length e.costs.cost.items ≡ 4) }
    ensures room { IfOk result (λ e. length e.costs.room.items ≡ 4) }
{
    let net = three_nodes(alloc)?;
    let costs = costs_of(alloc, cost, room)?;
    let units = Vec::from_slice(alloc, &units)?;
    Ok(Example {
        net,
        flow: Flow { units },
        costs,
    })
}

/// Whether each number is at most so far from 0.
fn all_within(numbers: &[i64], bound: i64) -> bool
    requires { pos 0 ≤ℤ bound }
    ensures { IsTrue result ↔ AllWithin bound numbers.now }
{
    for number in numbers {
        if *number < -bound || bound < *number {
            return false;
        }
    }
    true
}

/// Whether prices show that costs are small and no cycle costs less than nothing.
fn may_search(net: &Net, flow: &Flow, costs: &Costs, prices: &[i64]) -> bool
    requires units { length flow.now.units.items ≡ length net.now.arcs }
    requires cost { length costs.now.cost.items ≡ length net.now.arcs }
    requires room { length costs.now.room.items ≡ length net.now.arcs }
    ensures few { IsTrue result → AllWithin MAX_PATH_ARC_COST costs.now.cost.items }
    ensures no_negative { IsTrue result
        → HasNoNegativeCycle (without_return net.now flow.now costs.now) }
{
    let residual = Residual::new(net, flow, costs, net.arcs() - 1);
    sign_rule_leaves_no_negative_cycle();
    if !all_within(&costs.cost, MAX_PATH_ARC_COST) {
        return false;
    }
    if prices.len() != net.nodes() as usize {
        return false;
    }
    residual.keeps_sign_rule(prices)
}

/// Whether the last node is reached, what it costs, and the arc of the last step to it, which goes forward or not.
type Last = (Reach, Option<i64>, Option<(u32, bool)>);

/// What arcs cost, how many units have room on them, prices that keep the sign rule, and what becomes of the last node.
/// The second costs less over an arc of less than nothing; in the third no arc from node 0 has room. The last ones cost
/// as much as an arc may.
const LAST_NODES: [([i64; 4], [u32; 4], [i64; 3], Last); 5] = [
    (
        [2, 3, 9, 0],
        [1; 4],
        [0, 2, 5],
        (Reach::Reached, Some(5), Some((1, true))),
    ),
    (
        [2, -3, 1, 0],
        [1; 4],
        [0, 2, -1],
        (Reach::Reached, Some(-1), Some((1, true))),
    ),
    ([2, 3, 9, 0], [0, 1, 0, 1], [0; 3], (Reach::Cut, None, None)),
    (
        [MOST, MOST, MOST, 0],
        [1; 4],
        [0, MOST, MOST],
        (Reach::Reached, Some(MOST), Some((2, true))),
    ),
    (
        [MOST, -MOST, MOST, 0],
        [1; 4],
        [0, MOST, 0],
        (Reach::Reached, Some(0), Some((1, true))),
    ),
];

/// The greatest cost of an arc.
const MOST: i64 = MAX_PATH_ARC_COST;

/// The last node, once its paths are found.
fn last_of(example: &Example, paths: &mut Paths) -> Last
    requires nodes { example.now.net.nodes ≡ 3 }
    requires arcs { length example.now.net.arcs ≡ 4 }
    requires units { length example.now.flow.units.items ≡ 4 }
    requires cost { length example.now.costs.cost.items ≡ 4 }
    requires room { length example.now.costs.room.items ≡ 4 }
    requires few { AllWithin MAX_PATH_ARC_COST example.now.costs.cost.items }
    requires no_negative { HasNoNegativeCycle
        (without_return example.now.net example.now.flow example.now.costs) }
    requires paths { length paths.old.distances ≡ 3 }
    requires steps { length paths.old.steps ≡ 3 }
    ensures paths { length paths.new.distances ≡ 3 }
    ensures steps { length paths.new.steps ≡ 3 }
{
    let reach = distances(&example.net, &example.flow, &example.costs, paths);
    (reach, paths.distance(2), paths.step(2))
}

/// The last node as it is found first, and then by what nodes cost the first time.
fn last_nodes(
    alloc: Global,
    cost: [i64; 4],
    room: [u32; 4],
    prices: [i64; 3],
) -> Result<(Last, Last), Fail> {
    let example = made(alloc, [0; 4], cost, room)?;
    if !may_search(&example.net, &example.flow, &example.costs, &prices) {
        return Err(Fail::new("prices that don't keep the sign rule"));
    }
    let mut paths = Paths::new(alloc, &example.net)?;
    let first = last_of(&example, &mut paths);
    Ok((first, last_of(&example, &mut paths)))
}

#[test]
fn lead_to_the_last_node(rt: HostRuntime) -> Result<(), Fail> {
    for (cost, room, prices, wanted) in LAST_NODES {
        assert_eq!(rt;
            last_nodes(rt.alloc(), cost, room, prices)?,
            (wanted, wanted)
        );
    }
    Ok(())
}

/// Whether paths may be found in a net with these costs by prices.
fn may_guide(residual: &Residual, costs: &Costs, prices: &[i64]) -> bool
    requires nodes { residual.now.graph.nodes ≡ 3 }
    requires costs { residual.now.cost ≡ costs.now.cost.items }
    ensures small { IsTrue result → IsSmall residual.now prices.now }
    ensures sign_rule { IsTrue result → HasSignRule residual.now prices.now }
{
    if prices.len() != 3 {
        return false;
    }
    if !all_within(&costs.cost, MAX_STEP_COST) || !all_within(prices, MAX_SEARCH_PRICE) {
        return false;
    }
    residual.keeps_sign_rule(prices)
}

/// A node, and what the nodes cost from it. The arcs from node 0 cost 2 to node 1 and 5 to node 2. The one from node
/// 1 to node 2 costs 1.
const COSTS: [(u32, [Option<i64>; 3]); 2] = [
    (0, [Some(0), Some(2), Some(3)]),
    (2, [None, None, Some(0)]),
];

/// What the nodes cost from a node.
fn costs_from(
    residual: &Residual,
    costs: &Costs,
    paths: &mut Paths,
    source: u32,
) -> Result<[Option<i64>; 3], Fail>
    requires nodes { residual.now.graph.nodes ≡ 3 }
    requires costs { residual.now.cost ≡ costs.now.cost.items }
    requires size { length paths.old.distances ≡ 3 }
{
    let prices = [0; 3];
    if source >= 3 || !may_guide(residual, costs, &prices) {
        return Err(Fail::new("prices that don't keep the sign rule"));
    }
    paths.find(residual, &prices, source);
    Ok([paths.distance(0), paths.distance(1), paths.distance(2)])
}

fn costs(alloc: Global, source: u32) -> Result<[Option<i64>; 3], Fail> {
    let example = made(alloc, [0; 4], [2, 1, 5, 0], [1; 4])?;
    let mut paths = Paths::new(alloc, &example.net)?;
    let residual = Residual::new(&example.net, &example.flow, &example.costs, 3);
    costs_from(&residual, &example.costs, &mut paths, source)
}

#[test]
fn cost_the_least(rt: HostRuntime) -> Result<(), Fail> {
    for (source, wanted) in COSTS {
        assert_eq!(rt; costs(rt.alloc(), source)?, wanted, "from {source}");
    }
    Ok(())
}

/// Units on the arcs, the nodes' surplus, and the node and the prices with which a search begins. Also the node that it
/// finds and that lacks a unit, if any, how many nodes it reaches, the path, and the prices then.
struct Searched {
    units: [u32; 4],
    surplus: [i64; 3],
    source: u32,
    prices: [i64; 3],
    found: (Option<u32>, usize),
    path: &'static [Step],
    lowered: [i64; 3],
}

const SEARCHED: [Searched; 3] = [
    Searched {
        units: [0; 4],
        surplus: [1, 0, -1],
        source: 0,
        prices: [0; 3],
        found: (Some(2), 3),
        path: &[Step::Forward(1), Step::Forward(0)],
        lowered: [-3, -1, 0],
    },
    Searched {
        units: [0, 1, 0, 0],
        surplus: [0, -1, 1],
        source: 2,
        prices: [0, 2, 3],
        found: (Some(1), 2),
        path: &[Step::Back(1)],
        lowered: [0, 2, 3],
    },
    Searched {
        units: [0; 4],
        surplus: [-1, 0, 1],
        source: 2,
        prices: [0; 3],
        found: (None, 1),
        path: &[],
        lowered: [0; 3],
    },
];

/// The node that lacks a unit which a search finds, and how many nodes it reaches.
fn goal(
    residual: &Residual,
    costs: &Costs,
    search: &mut Search,
    row: &Searched,
    prices: &mut [i64],
) -> Result<(Option<u32>, usize), Fail>
    requires nodes { residual.now.graph.nodes ≡ 3 }
    requires costs { residual.now.cost ≡ costs.now.cost.items }
    requires search { search.old.nodes ≡ 3 }
{
    if row.source >= 3 || !may_guide(residual, costs, prices) {
        return Err(Fail::new("prices that don't keep the sign rule"));
    }
    if row.surplus[row.source as usize] < 0 {
        return Err(Fail::new("a node that lacks a unit"));
    }
    let goal = search.find(residual, &row.surplus, row.source, prices);
    Ok((goal, search.reached().len()))
}

/// What a search finds: that, the path, and the prices then.
fn found(
    alloc: Global,
    row: &Searched,
) -> Result<((Option<u32>, usize), Vec<Step>, [i64; 3]), Fail> {
    let example = made(alloc, row.units, [2, 1, 5, 0], [1; 4])?;
    let mut search = Search::new(alloc, 3)?;
    let mut prices = row.prices;
    let residual = Residual::new(&example.net, &example.flow, &example.costs, 3);
    let found = goal(&residual, &example.costs, &mut search, row, &mut prices)?;
    Ok((found, search.path().to_vec(alloc)?, prices))
}

#[test]
fn lead_to_the_nearest_node_that_lacks_a_unit(rt: HostRuntime) -> Result<(), Fail> {
    for row in &SEARCHED {
        let (found, path, lowered) = found(rt.alloc(), row)?;
        assert_eq!(rt; (found, lowered), (row.found, row.lowered));
        assert_eq!(rt; path.as_slice(), row.path);
    }
    Ok(())
}

/// The prices of the nodes once they are raised from a node, by 10 where it doesn't reach.
fn raise(
    residual: &Residual,
    costs: &Costs,
    search: &mut Search,
    source: u32,
) -> Result<[i64; 3], Fail>
    requires nodes { residual.now.graph.nodes ≡ 3 }
    requires costs { residual.now.cost ≡ costs.now.cost.items }
    requires search { search.old.nodes ≡ 3 }
{
    let mut prices = [0; 3];
    if source >= 3 || !may_guide(residual, costs, &prices) {
        return Err(Fail::new("prices that don't keep the sign rule"));
    }
    search.raise(residual, source, 10, &mut prices);
    Ok(prices)
}

fn raised(alloc: Global, source: u32) -> Result<[i64; 3], Fail> {
    let example = made(alloc, [0; 4], [2, 1, 5, 0], [1; 4])?;
    let mut search = Search::new(alloc, 3)?;
    let residual = Residual::new(&example.net, &example.flow, &example.costs, 3);
    raise(&residual, &example.costs, &mut search, source)
}

/// A node, and the prices once they are raised from it.
const RAISED: [(u32, [i64; 3]); 2] = [(0, [0, 2, 3]), (1, [10, 0, 1])];

#[test]
fn raise_prices(rt: HostRuntime) -> Result<(), Fail> {
    for (source, wanted) in RAISED {
        assert_eq!(rt; raised(rt.alloc(), source)?, wanted, "from {source}");
    }
    Ok(())
}

/// Whether a node that may have a key may be given this one.
fn may_lower(known: Option<i64>, key: i64) -> bool
    ensures { IsTrue result ↔ IsBelow key known }
{
    match known {
        None => true,
        Some(known) => key < known,
    }
}

/// Takes a node out of a heap, and out of a plain list of the nodes' keys. Gives its key in the heap and in the list.
fn take_of_both(heap: &mut NodeHeap, keys: &mut [Option<i64>; 7]) -> (Option<i64>, Option<i64>)
    requires { length heap.old.waiting ≡ 7 }
    ensures size { length heap.new.waiting ≡ 7 }
    ensures settled { heap.new.settled ≡ heap.old.settled }
{
    let Some((node, key)) = heap.take() else {
        return (None, None);
    };
    let listed = keys[node as usize];
    keys[node as usize] = None;
    (Some(key), listed)
}

/// A heap of nodes gives the least key, as a plain list of the nodes' keys does.
#[test]
fn take_nodes_by_their_keys(rt: HostRuntime) -> Result<(), Fail> {
    let mut heap = NodeHeap::new(rt.alloc(), 7)?;
    let mut keys = [None; 7];
    let mut number: u32 = 1;
    for _ in 0..60 {
        number = number.wrapping_mul(1_664_525).wrapping_add(1_013_904_223);
        let node = (number >> 8) % 7;
        let key = i64::from((number >> 16) % 50) - 25;
        if number >> 30 == 0 {
            let least: Option<i64> = keys.iter().flatten().copied().min();
            assert_eq!(rt; take_of_both(&mut heap, &mut keys), (least, least));
        } else if may_lower(heap.key(node), key) {
            heap.lower(node, key, Step::Forward(node));
            keys[node as usize] = Some(key);
        }
        assert_eq!(rt; heap.key(node), keys[node as usize]);
    }
    heap.clear();
    assert_eq!(rt; heap.take(), None);
    Ok(())
}
