// Made by .ci/widths.py: change .ci/widths/ordered.template, and not this file.
//! Comparing and hashing tuples of three to ten fields as rows.
ghost use Rattle.std.specs.Prelude.{◌++◌};
ghost use Rattle.columnar_base.specs.Row.{first_of, second_of};

use super::OrderedRow;
use std::cmp::Ordering;
use std::hash::Hasher;

/// Compares by the first unequal field; a hasher receives the fields in order.
impl<P: OrderedRow, Q: OrderedRow, R: OrderedRow> OrderedRow for (P, Q, R) {
    ghost row_input = { λ r. P.row_input (first_of r) ++ (Q.row_input (first_of (second_of r)) ++ (R.row_input (second_of (second_of r)))) };

    fn same_row(&self, other: &Self) -> bool {
        self.0.same_row(&other.0) && self.1.same_row(&other.1) && self.2.same_row(&other.2)
    }

    fn compare_row(&self, other: &Self) -> Ordering {
        let first = self.0.compare_row(&other.0);
        let second = self.1.compare_row(&other.1);
        first.then(second.then(self.2.compare_row(&other.2)))
    }

    fn hash_row<H: Hasher>(&self, state: &mut H) {
        self.0.hash_row(state);
        self.1.hash_row(state);
        self.2.hash_row(state);
    }
}

/// Compares by the first unequal field; a hasher receives the fields in order.
impl<P: OrderedRow, Q: OrderedRow, R: OrderedRow, S: OrderedRow> OrderedRow for (P, Q, R, S) {
    ghost row_input = { λ r. P.row_input (first_of r) ++ (Q.row_input (first_of (second_of r)) ++ (R.row_input (first_of (second_of (second_of r))) ++ (S.row_input (second_of (second_of (second_of r)))))) };

    fn same_row(&self, other: &Self) -> bool {
        self.0.same_row(&other.0)
            && self.1.same_row(&other.1)
            && self.2.same_row(&other.2)
            && self.3.same_row(&other.3)
    }

    fn compare_row(&self, other: &Self) -> Ordering {
        let first = self.0.compare_row(&other.0);
        let second = self.1.compare_row(&other.1);
        let third = self.2.compare_row(&other.2);
        first.then(second.then(third.then(self.3.compare_row(&other.3))))
    }

    fn hash_row<H: Hasher>(&self, state: &mut H) {
        self.0.hash_row(state);
        self.1.hash_row(state);
        self.2.hash_row(state);
        self.3.hash_row(state);
    }
}

/// Compares by the first unequal field; a hasher receives the fields in order.
impl<P: OrderedRow, Q: OrderedRow, R: OrderedRow, S: OrderedRow, T: OrderedRow> OrderedRow
    for (P, Q, R, S, T) {
    ghost row_input = { λ r. P.row_input (first_of r) ++ (Q.row_input (first_of (second_of r)) ++ (R.row_input (first_of (second_of (second_of r))) ++ (S.row_input (first_of (second_of (second_of (second_of r)))) ++ (T.row_input (second_of (second_of (second_of (second_of r)))))))) };

    fn same_row(&self, other: &Self) -> bool {
        self.0.same_row(&other.0)
            && self.1.same_row(&other.1)
            && self.2.same_row(&other.2)
            && self.3.same_row(&other.3)
            && self.4.same_row(&other.4)
    }

    fn compare_row(&self, other: &Self) -> Ordering {
        let first = self.0.compare_row(&other.0);
        let second = self.1.compare_row(&other.1);
        let third = self.2.compare_row(&other.2);
        let fourth = self.3.compare_row(&other.3);
        first.then(second.then(third.then(fourth.then(self.4.compare_row(&other.4)))))
    }

    fn hash_row<H: Hasher>(&self, state: &mut H) {
        self.0.hash_row(state);
        self.1.hash_row(state);
        self.2.hash_row(state);
        self.3.hash_row(state);
        self.4.hash_row(state);
    }
}

/// Compares by the first unequal field; a hasher receives the fields in order.
impl<
    P: OrderedRow,
    Q: OrderedRow,
    R: OrderedRow,
    S: OrderedRow,
    T: OrderedRow,
    U: OrderedRow,
> OrderedRow for (P, Q, R, S, T, U) {
    ghost row_input = { λ r. P.row_input (first_of r) ++ (Q.row_input (first_of (second_of r)) ++ (R.row_input (first_of (second_of (second_of r))) ++ (S.row_input (first_of (second_of (second_of (second_of r)))) ++ (T.row_input (first_of (second_of (second_of (second_of (second_of r))))) ++ (U.row_input (second_of (second_of (second_of (second_of (second_of r)))))))))) };

    fn same_row(&self, other: &Self) -> bool {
        self.0.same_row(&other.0)
            && self.1.same_row(&other.1)
            && self.2.same_row(&other.2)
            && self.3.same_row(&other.3)
            && self.4.same_row(&other.4)
            && self.5.same_row(&other.5)
    }

    fn compare_row(&self, other: &Self) -> Ordering {
        let first = self.0.compare_row(&other.0);
        let second = self.1.compare_row(&other.1);
        let third = self.2.compare_row(&other.2);
        let fourth = self.3.compare_row(&other.3);
        let fifth = self.4.compare_row(&other.4);
        first.then(second.then(third.then(fourth.then(fifth.then(self.5.compare_row(&other.5))))))
    }

    fn hash_row<H: Hasher>(&self, state: &mut H) {
        self.0.hash_row(state);
        self.1.hash_row(state);
        self.2.hash_row(state);
        self.3.hash_row(state);
        self.4.hash_row(state);
        self.5.hash_row(state);
    }
}

/// Compares by the first unequal field; a hasher receives the fields in order.
impl<
    P: OrderedRow,
    Q: OrderedRow,
    R: OrderedRow,
    S: OrderedRow,
    T: OrderedRow,
    U: OrderedRow,
    V: OrderedRow,
> OrderedRow for (P, Q, R, S, T, U, V) {
    ghost row_input = { λ r. P.row_input (first_of r) ++ (Q.row_input (first_of (second_of r)) ++ (R.row_input (first_of (second_of (second_of r))) ++ (S.row_input (first_of (second_of (second_of (second_of r)))) ++ (T.row_input (first_of (second_of (second_of (second_of (second_of r))))) ++ (U.row_input (first_of (second_of (second_of (second_of (second_of (second_of r)))))) ++ (V.row_input (second_of (second_of (second_of (second_of (second_of (second_of r)))))))))))) };

    fn same_row(&self, other: &Self) -> bool {
        self.0.same_row(&other.0)
            && self.1.same_row(&other.1)
            && self.2.same_row(&other.2)
            && self.3.same_row(&other.3)
            && self.4.same_row(&other.4)
            && self.5.same_row(&other.5)
            && self.6.same_row(&other.6)
    }

    fn compare_row(&self, other: &Self) -> Ordering {
        let first = self.0.compare_row(&other.0);
        let second = self.1.compare_row(&other.1);
        let third = self.2.compare_row(&other.2);
        let fourth = self.3.compare_row(&other.3);
        let fifth = self.4.compare_row(&other.4);
        let sixth = self.5.compare_row(&other.5);
        first.then(second.then(third.then(fourth.then(fifth.then(sixth.then(
            self.6.compare_row(&other.6),
        ))))))
    }

    fn hash_row<H: Hasher>(&self, state: &mut H) {
        self.0.hash_row(state);
        self.1.hash_row(state);
        self.2.hash_row(state);
        self.3.hash_row(state);
        self.4.hash_row(state);
        self.5.hash_row(state);
        self.6.hash_row(state);
    }
}

/// Compares by the first unequal field; a hasher receives the fields in order.
impl<
    P: OrderedRow,
    Q: OrderedRow,
    R: OrderedRow,
    S: OrderedRow,
    T: OrderedRow,
    U: OrderedRow,
    V: OrderedRow,
    W: OrderedRow,
> OrderedRow for (P, Q, R, S, T, U, V, W) {
    ghost row_input = { λ r. P.row_input (first_of r) ++ (Q.row_input (first_of (second_of r)) ++ (R.row_input (first_of (second_of (second_of r))) ++ (S.row_input (first_of (second_of (second_of (second_of r)))) ++ (T.row_input (first_of (second_of (second_of (second_of (second_of r))))) ++ (U.row_input (first_of (second_of (second_of (second_of (second_of (second_of r)))))) ++ (V.row_input (first_of (second_of (second_of (second_of (second_of (second_of (second_of r))))))) ++ (W.row_input (second_of (second_of (second_of (second_of (second_of (second_of (second_of r)))))))))))))) };

    fn same_row(&self, other: &Self) -> bool {
        self.0.same_row(&other.0)
            && self.1.same_row(&other.1)
            && self.2.same_row(&other.2)
            && self.3.same_row(&other.3)
            && self.4.same_row(&other.4)
            && self.5.same_row(&other.5)
            && self.6.same_row(&other.6)
            && self.7.same_row(&other.7)
    }

    fn compare_row(&self, other: &Self) -> Ordering {
        let first = self.0.compare_row(&other.0);
        let second = self.1.compare_row(&other.1);
        let third = self.2.compare_row(&other.2);
        let fourth = self.3.compare_row(&other.3);
        let fifth = self.4.compare_row(&other.4);
        let sixth = self.5.compare_row(&other.5);
        let seventh = self.6.compare_row(&other.6);
        first.then(second.then(third.then(fourth.then(fifth.then(sixth.then(seventh.then(
            self.7.compare_row(&other.7),
        )))))))
    }

    fn hash_row<H: Hasher>(&self, state: &mut H) {
        self.0.hash_row(state);
        self.1.hash_row(state);
        self.2.hash_row(state);
        self.3.hash_row(state);
        self.4.hash_row(state);
        self.5.hash_row(state);
        self.6.hash_row(state);
        self.7.hash_row(state);
    }
}

/// Compares by the first unequal field; a hasher receives the fields in order.
impl<
    P: OrderedRow,
    Q: OrderedRow,
    R: OrderedRow,
    S: OrderedRow,
    T: OrderedRow,
    U: OrderedRow,
    V: OrderedRow,
    W: OrderedRow,
    X: OrderedRow,
> OrderedRow for (P, Q, R, S, T, U, V, W, X) {
    ghost row_input = { λ r. P.row_input (first_of r) ++ (Q.row_input (first_of (second_of r)) ++ (R.row_input (first_of (second_of (second_of r))) ++ (S.row_input (first_of (second_of (second_of (second_of r)))) ++ (T.row_input (first_of (second_of (second_of (second_of (second_of r))))) ++ (U.row_input (first_of (second_of (second_of (second_of (second_of (second_of r)))))) ++ (V.row_input (first_of (second_of (second_of (second_of (second_of (second_of (second_of r))))))) ++ (W.row_input (first_of (second_of (second_of (second_of (second_of (second_of (second_of (second_of r)))))))) ++ (X.row_input (second_of (second_of (second_of (second_of (second_of (second_of (second_of (second_of r)))))))))))))))) };

    fn same_row(&self, other: &Self) -> bool {
        self.0.same_row(&other.0)
            && self.1.same_row(&other.1)
            && self.2.same_row(&other.2)
            && self.3.same_row(&other.3)
            && self.4.same_row(&other.4)
            && self.5.same_row(&other.5)
            && self.6.same_row(&other.6)
            && self.7.same_row(&other.7)
            && self.8.same_row(&other.8)
    }

    fn compare_row(&self, other: &Self) -> Ordering {
        let first = self.0.compare_row(&other.0);
        let second = self.1.compare_row(&other.1);
        let third = self.2.compare_row(&other.2);
        let fourth = self.3.compare_row(&other.3);
        let fifth = self.4.compare_row(&other.4);
        let sixth = self.5.compare_row(&other.5);
        let seventh = self.6.compare_row(&other.6);
        let eighth = self.7.compare_row(&other.7);
        first.then(second.then(third.then(fourth.then(fifth.then(sixth.then(seventh.then(
            eighth.then(self.8.compare_row(&other.8)),
        )))))))
    }

    fn hash_row<H: Hasher>(&self, state: &mut H) {
        self.0.hash_row(state);
        self.1.hash_row(state);
        self.2.hash_row(state);
        self.3.hash_row(state);
        self.4.hash_row(state);
        self.5.hash_row(state);
        self.6.hash_row(state);
        self.7.hash_row(state);
        self.8.hash_row(state);
    }
}

/// Compares by the first unequal field; a hasher receives the fields in order.
impl<
    P: OrderedRow,
    Q: OrderedRow,
    R: OrderedRow,
    S: OrderedRow,
    T: OrderedRow,
    U: OrderedRow,
    V: OrderedRow,
    W: OrderedRow,
    X: OrderedRow,
    Y: OrderedRow,
> OrderedRow for (P, Q, R, S, T, U, V, W, X, Y) {
    ghost row_input = { λ r. P.row_input (first_of r) ++ (Q.row_input (first_of (second_of r)) ++ (R.row_input (first_of (second_of (second_of r))) ++ (S.row_input (first_of (second_of (second_of (second_of r)))) ++ (T.row_input (first_of (second_of (second_of (second_of (second_of r))))) ++ (U.row_input (first_of (second_of (second_of (second_of (second_of (second_of r)))))) ++ (V.row_input (first_of (second_of (second_of (second_of (second_of (second_of (second_of r))))))) ++ (W.row_input (first_of (second_of (second_of (second_of (second_of (second_of (second_of (second_of r)))))))) ++ (X.row_input (first_of (second_of (second_of (second_of (second_of (second_of (second_of (second_of (second_of r))))))))) ++ (Y.row_input (second_of (second_of (second_of (second_of (second_of (second_of (second_of (second_of (second_of r)))))))))))))))))) };

    fn same_row(&self, other: &Self) -> bool {
        self.0.same_row(&other.0)
            && self.1.same_row(&other.1)
            && self.2.same_row(&other.2)
            && self.3.same_row(&other.3)
            && self.4.same_row(&other.4)
            && self.5.same_row(&other.5)
            && self.6.same_row(&other.6)
            && self.7.same_row(&other.7)
            && self.8.same_row(&other.8)
            && self.9.same_row(&other.9)
    }

    fn compare_row(&self, other: &Self) -> Ordering {
        let first = self.0.compare_row(&other.0);
        let second = self.1.compare_row(&other.1);
        let third = self.2.compare_row(&other.2);
        let fourth = self.3.compare_row(&other.3);
        let fifth = self.4.compare_row(&other.4);
        let sixth = self.5.compare_row(&other.5);
        let seventh = self.6.compare_row(&other.6);
        let eighth = self.7.compare_row(&other.7);
        let ninth = self.8.compare_row(&other.8);
        first.then(second.then(third.then(fourth.then(fifth.then(sixth.then(seventh.then(
            eighth.then(ninth.then(self.9.compare_row(&other.9))),
        )))))))
    }

    fn hash_row<H: Hasher>(&self, state: &mut H) {
        self.0.hash_row(state);
        self.1.hash_row(state);
        self.2.hash_row(state);
        self.3.hash_row(state);
        self.4.hash_row(state);
        self.5.hash_row(state);
        self.6.hash_row(state);
        self.7.hash_row(state);
        self.8.hash_row(state);
        self.9.hash_row(state);
    }
}
