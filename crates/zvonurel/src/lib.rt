// Zvonurel: EWAH and WAH bitmaps over lent slices of 32-bit words. Every public call is on this page; its contract
// stands in the crate that it is passed on from.
//
// A call asks nothing of its input: what is wrong with it is refused, with a refusal, whose fault has a number. Each `ensures`
// settles what is returned, and every word of a lent buffer and of a lent state afterwards, for every input. The
// outcomes that they name are defined in `meaning`'s `specs/Answer.antt` and `specs/Rewriting.antt`, in `column_meaning`'s
// `specs/Columns.antt` and in `batches`' `specs/Append.antt`; `answers`' `specs/Told.antt` says which outcome an answer
// tells.
#![tactic(auto)]

pub use answers::answer::Report;
pub use answers::refusal::{Fault, Refusal};
pub use batches::AppendState;
pub use meaning::{Format, Row};

// ---- one body alone, of a format: bitmap 0, with places counted in the body; too many rows are refused first

// The first fault of a body of that many rows.
pub use on_bodies::check_body;

// Whether a row is set, and which rows its piece has in that body: the first of them and the last.
pub use on_bodies::body_row;

// How many rows are set.
pub use on_bodies::body_count;

// The nth set row, counted from 0.
pub use on_bodies::body_nth;

// The body's rows as plain words, 32 rows to a word, the lowest bit first.
pub use on_bodies::expand;

// Plain words as a body in canonical form.
pub use on_bodies::compress;

// A body written anew, in canonical form, in the format `to`.
pub use on_bodies::rewrite;

// ---- rows that come in batches: state and buffer of such a writer are the caller's, who lends both with each batch

// The state of a writer that begins on a buffer, of which no word changes.
pub use on_writers::begin;

// A batch of rows, as plain words, behind those that the writer has: all of them as an EWAH body in canonical form, at
// the buffer's front.
pub use on_writers::append;

// ---- an index, of bodies of the format that word 0 states: the whole of it is checked, whatever is asked

// The first fault of an index.
pub use on_bitmaps::check;

// Why `bitmap` returns an empty part; nothing where it was not refused.
pub use on_bitmaps::bitmap_refusal;

// The part of the index that is bitmap k's body, in the lent index itself: empty where the index or the number is refused.
pub use on_bitmaps::bitmap;

// Whether a row of bitmap k is set, and the first and last row of its piece in the bitmap's body.
pub use on_bitmaps::row;

// How many rows of bitmap k are set.
pub use on_bitmaps::count;

// The nth set row of bitmap k, counted from 0.
pub use on_bitmaps::nth;

// The rows of bitmap k as plain words.
pub use on_bitmaps::expand_bitmap;

// The rows of bitmap k as a body in canonical form of the format `to`.
pub use on_bitmaps::rewrite_bitmap;

// All bitmaps, in their order, as a new index with bodies of the format `to`.
pub use on_bitmaps::rewrite_index;

// ---- two bitmaps of an index, or one, as a body in canonical form, of the index's format

// The rows that both have.
pub use on_logical::and;

// The rows that one or both have.
pub use on_logical::or;

// The rows that just one of the two has.
pub use on_logical::xor;

// The rows that j has and k has not.
pub use on_logical::and_not;

// The rows that bitmap k has not.
pub use on_logical::not;

// ---- a list of 1 to `MOST_NAMED` bitmap numbers, repeats included, each counted as often as it is named

// The rows that at least t of the list have, as a body in canonical form.
pub use on_lists::threshold;

// The rows at whose number the table has a 1, as a body in canonical form.
pub use on_lists::symmetric;

// For each c from 0 to `MOST_NAMED` the number of rows that exactly c of the list have.
pub use on_lists::histogram;

// ---- columns: a list names existence first, then the slices, the lowest first; a number may be named twice

// The value at a row of the column that a list of `LEAST_COLUMN` to `MOST_VALUE_COLUMN` numbers names.
pub use on_columns::value;

// The same of a signed column, which is two's complement with the top slice as its sign.
pub use on_columns::signed_value;

// ---- two columns of up to `MOST_COLUMN` numbers each, as a new index of the same format: the rows that exist in both,
// then the slices

// The sums, with one slice more than the wider column has.
pub use on_columns::sum;

// The differences, the first less the second, as a signed column of one slice more than the wider has.
pub use on_columns::signed_difference;

// The smaller of both values, with as many slices as the wider column has.
pub use on_columns::smaller;

// The differences, and 0 where they are negative, with as many slices as the wider column has.
pub use on_columns::difference_or_zero;

// ---- a column of up to `MOST_COLUMN` numbers: its k rows of largest or smallest value, as a body in canonical form, of the index's
// format; of equal values the lowest rows come first

// The k rows with the largest values.
pub use on_columns::largest;

// The k rows with the smallest values.
pub use on_columns::smallest;
