ghost use Rattle.std.specs.Prelude.{◌≡◌, ◌<◌, ◌^◌};
ghost use Rattle.vg_graph.specs.Hashing.{operator_number, mixed, node_hash, bucket_of};

use crate::node::Node;
use crate::operands::Operands;
use crate::operator::Op;

/// A number for an operator. Operators of one kind may share it.
#[inline]
#[tactic(auto, unfolding(crate::specs::Hashing::operator_number))]
fn number(op: Op) -> u64
    ensures { result ≡ operator_number op }
{
    match op {
        Op::Const(b) => (b.value() % 0x1000_0000_0000_0000) as u64,
        Op::Field(f) => 0x1000_0000_0000_0000 + f.index as u64,
        Op::Pc => 0x2000_0000_0000_0000,
        Op::Reg(r) => 0x3000_0000_0000_0000 + r.0 as u64,
        Op::Mem(bytes) => 0x4000_0000_0000_0000 + bytes as u64,
        Op::Unary(_) => 0x5000_0000_0000_0000,
        Op::Binary(_) => 0x6000_0000_0000_0000,
        Op::Cast(_, width) => 0x7000_0000_0000_0000 + width.bits() as u64,
        Op::Slice(high, low) => 0x8000_0000_0000_0000 + high as u64 * 256 + low as u64,
        Op::Join => 0x9000_0000_0000_0000,
        Op::If => 0xa000_0000_0000_0000,
    }
}

/// Mixes a number into a hash.
#[inline]
#[tactic(auto, unfolding(crate::specs::Hashing::mixed))]
fn mix(hash: u64, x: u64) -> u64
    ensures { result ≡ mixed hash x }
{
    (hash ^ x).wrapping_mul(0x9e37_79b9_7f4a_7c15)
}

/// The hash of a node, which equal nodes share.
#[inline]
#[tactic(auto, unfolding(crate::specs::Hashing::node_hash, crate::specs::Hashing::operands_hash))]
fn hash(node: &Node) -> u64
    ensures { result ≡ node_hash node.now }
{
    let op = mix(0, number(node.op));
    match node.args {
        Operands::Zero => op,
        Operands::One(a) => mix(op, a as u64),
        Operands::Two(a, b) => mix(mix(op, a as u64), b as u64),
        Operands::Three(a, b, c) => mix(mix(mix(op, a as u64), b as u64), c as u64),
    }
}

/// The bucket of a node, of so many.
#[inline]
#[tactic(auto, unfolding(crate::specs::Hashing::bucket_of))]
pub fn bucket(count: u32, node: &Node) -> u32
    requires { 0 < count }
    ensures bucket { result ≡ bucket_of count node.now }
    ensures within { result < count }
{
    ((hash(node) >> 32) % count as u64) as u32
}
