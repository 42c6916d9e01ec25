// u, the form times v, and N, the sum of v_i · u_i.
ghost use Rattle.std.specs.Prelude.{◌≡◌, ◌*◌, ◌<◌, length, pos, slice_index_or};
ghost use Rattle.ring.specs.Classes.{size_of};
ghost use Rattle.ring.specs.Elements.{adjoint, dot};
ghost use Rattle.scheme.specs.Pairs.{pair, numbers_of};
ghost use Rattle.scheme.specs.Verdicts.{image_of, length_under};
ghost use Rattle.key.specs.Gramheld.{gram_of};
ghost use Rattle.verify.specs.Images.{shown, PointWords, RowWords, Summed};

use crate::point::Point;
use key::Form;
use ring::{adjoint, coefficient, widen};
use scheme::within;

// The largest number of u in size.
const IMAGE_LIMIT: u32 = 1_048_576;

// Two elements of a form, written as words, beside v. With one lifetime for p, q
// and v the making of a row is not covered.
#[derive(Clone, Copy)]
struct Row<'w, 'v> {
    p: &'w [i64],
    q: &'w [i64],
    v: Point<'v>,
    ghost elements: { RowWords (length v.v0.now) (shown p.now) q.now },
}

impl Row<'_, '_> {
    ghost use Rattle.verify.specs.Rows.{u_of};

    // Number k of u = p·v0 + q·v1.
    fn at(&self, k: usize) -> i64
        requires within { k < length self.now.v.v0.now }
        ensures { result ≡ slice_index_or (u_of self.now) k (pos 0) }
    {
        coefficient(self.p, self.v.v0, k) + coefficient(self.q, self.v.v1, k)
    }

    // The sum of half_k · u_k; none where a number of u is outside ±1,048,576.
    fn paired(&self, half: &[i64]) -> Option<i64>
        requires half { PointWords (length self.now.v.v0.now) half.now }
        ensures { Summed (u_of self.now) (dot half.now (u_of self.now)) result }
    {
        let mut sum: i64 = 0;
        for (k, number) in half.iter().enumerate() {
            let u = self.at(k);
            if !within(IMAGE_LIMIT, u) {
                return None;
            }
            sum += *number * u;
        }
        Some(sum)
    }
}

// The first row of the form: q00 and q01 as words.
fn first_row(form: &Form, p: &mut [i64], q: &mut [i64])
    requires p_long { length p.old ≡ size_of form.now.class }
    requires q_long { length q.old ≡ size_of form.now.class }
    ensures p_is { shown p.new ≡ (gram_of form.now).q00 }
    ensures q_is { q.new ≡ (gram_of form.now).q01 }
{
    widen(form.q00(), p);
    widen(form.q01(), q);
}

// The second row: q01*, worked out from q01 in q, and q11.
fn second_row(form: &Form, p: &mut [i64], q: &mut [i64])
    requires p_long { length p.old ≡ size_of form.now.class }
    requires q_long { length q.old ≡ size_of form.now.class }
    requires q_is { q.old ≡ (gram_of form.now).q01 }
    ensures p_is { shown p.new ≡ adjoint (gram_of form.now).q01 }
    ensures q_is { q.new ≡ (gram_of form.now).q11 }
{
    // Both lists have a class's size, so nothing is refused.
    let _ = adjoint(q, p);
    widen(form.q11(), q);
}

// N; none where a number of u is outside ±1,048,576. The form's rows are written over 2n words.
pub(crate) fn length_under(form: &Form, v: &Point, rows: &mut [i64]) -> Option<i64>
    requires v_long { length v.now.v0.now ≡ size_of form.now.class }
    requires rows_long { length rows.old ≡ 2 * size_of form.now.class }
    ensures { let u = image_of (gram_of form.now) (pair v.now.v0.now v.now.v1.now) in Summed (numbers_of u) (length_under (gram_of form.now) (pair v.now.v0.now v.now.v1.now)) result }
{
    let n = v.v0.len();
    let (p, q) = rows.split_at_mut(n);
    first_row(form, p, q);
    let first = Row { p, q, v: *v }.paired(v.v0)?;
    second_row(form, p, q);
    let second = Row { p, q, v: *v }.paired(v.v1)?;
    Some(first + second)
}
