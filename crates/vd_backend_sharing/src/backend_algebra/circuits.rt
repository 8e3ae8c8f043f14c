//! What circuits compute.

ghost use Rattle.std.specs.Prelude.{ℕ, bit_and, bit_xor};
ghost use Rattle.vd_base.specs.declared.operations.Op.TheVariants as op;
ghost use Rattle.vd_backend_sharing.specs.Circuits.{shl, shr, not_of, flip_of, or_of, add_of, sub_of, lt_of, le_of, eq_of, ne_of, mux_of, min_of, max_of};
ghost use Rattle.vd_backend_sharing.specs.Computing.{Computes, ComputesOfTwo, ComputesOfThree, CircuitsCompute};
ghost use Rattle.vd_backend_sharing.specs.Gates.{GatesCompute, GatesAreInOrder, GatesAreFew};

/// What goes bit by bit or moves bits.
pub fn bitwise_circuits()
    ensures and { ComputesOfTwo op.And bit_and }
    ensures xor { ComputesOfTwo op.Xor bit_xor }
    ensures or { ComputesOfTwo op.Or or_of }
    ensures not { Computes op.Not not_of }
    ensures flip { Computes op.Flip flip_of }
    ensures shl { (amount : ℕ) → Computes (op.Shl amount) (λ x. shl x amount) }
    ensures shr { (amount : ℕ) → Computes (op.Shr amount) (λ x. shr x amount) }
{}

/// Sums by carries that are looked ahead, and differences by sums.
pub fn sum_circuits()
    ensures add { ComputesOfTwo op.Add add_of }
    ensures sub { ComputesOfTwo op.Sub sub_of }
{}

/// Comparisons of words without a sign.
pub fn comparison_circuits()
    ensures lt { ComputesOfTwo op.Lt lt_of }
    ensures le { ComputesOfTwo op.Le le_of }
    ensures eq { ComputesOfTwo op.Eq eq_of }
    ensures ne { ComputesOfTwo op.Ne ne_of }
{}

/// Choices by a mask.
pub fn choice_circuits()
    ensures mux { ComputesOfThree op.Mux mux_of }
    ensures min { ComputesOfTwo op.Min min_of }
    ensures max { ComputesOfTwo op.Max max_of }
{}

/// Each operation that can stand at shared bits has a circuit that computes it.
pub fn circuits_compute()
    ensures { CircuitsCompute }
{}

/// The gates of each such operation make its result, one after the other.
pub fn gates_compute()
    ensures result { GatesCompute }
    ensures in_order { GatesAreInOrder }
    ensures few { GatesAreFew }
{}
