//! How many outputs there are, at least and at most.

ghost use Rattle.std.specs.Prelude.{◌≡◌};
ghost use Rattle.vd_cmd_data.specs.Spans as spans;

/// How many outputs there are, at least and at most; no more than 2^64 - 1 are told.
#[derive(Clone, Copy)]
pub(crate) struct Span {
    pub least: usize,
    pub most: usize,
}

/// So many.
pub(crate) fn exactly(count: usize) -> Span
    ensures { result ≡ spans.exactly count }
{
    Span {
        least: count,
        most: count,
    }
}

/// Some, and then others.
pub(crate) fn plus(first: Span, second: Span) -> Span
    ensures { result ≡ spans.plus first second }
{
    Span {
        least: first.least.saturating_add(second.least),
        most: first.most.saturating_add(second.most),
    }
}

/// Some, or others in their place.
pub(crate) fn either(first: Span, second: Span) -> Span
    ensures { result ≡ spans.either first second }
{
    Span {
        least: first.least.min(second.least),
        most: first.most.max(second.most),
    }
}

/// Some, so often.
pub(crate) fn times(count: usize, one: Span) -> Span
    ensures { result ≡ spans.times count one }
{
    Span {
        least: count.saturating_mul(one.least),
        most: count.saturating_mul(one.most),
    }
}

/// Whether there can be so many.
pub(crate) fn is_within(count: usize, span: Span) -> bool
    ensures { result ≡ spans.is_within count span }
{
    span.least <= count && count <= span.most
}
