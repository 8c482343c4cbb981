//! The laws of dimension, meet, distance, combinations and additive maps, over any rows of any width.
//! Each function's contract is the law.
ghost use Rattle.kk_rows.specs.Combination.{CombinationsAreMembers};
ghost use Rattle.kk_rows.specs.Laws.{
  SpanDimensionIsUnique,
  MeetDimensionIsTheMeet,
  DistanceIsAMetric,
  ReducedFormIsUnique,
  AdditiveMapsTakeSpansToSpans,
  UnitRowsAreABasis,
};

/// Rows of the same span have the same dimension.
pub fn span_dimension_is_unique()
    ensures { SpanDimensionIsUnique }
{}

/// The common members of two spans have a basis, and `meet_dimension` is its length.
pub fn meet_dimension_is_the_meet()
    ensures { MeetDimensionIsTheMeet }
{}

/// The subspace distance is symmetric, is 0 exactly where the spans are the same, and meets the triangle inequality.
///
/// Kötter and Kschischang, "Coding for errors and erasures in random network coding", 2008, Lemma 1.
pub fn distance_is_a_metric()
    ensures { DistanceIsAMetric }
{}

/// A span has exactly one reduced row echelon form.
pub fn reduced_form_is_unique()
    ensures { ReducedFormIsUnique }
{}

/// An additive map takes the members of a span to the members of the span of the images, and to no others. The dimension
/// doesn't rise, so rows are independent where their images are.
pub fn additive_maps_take_spans_to_spans()
    ensures { AdditiveMapsTakeSpansToSpans }
{}

/// The rows 2^0, 2^1, .. 2^(n-1) are independent and span the rows below 2^n.
pub fn unit_rows_are_a_basis()
    ensures { UnitRowsAreABasis }
{}

/// Each combination of rows is a member of their span.
pub fn combinations_are_members()
    ensures { CombinationsAreMembers }
{}
