//! Laws of stores that frame slices. No call has an effect at run time; its contract is the law.
ghost use Rattle.std.specs.Prelude.{ℕ, List, [], ◌≡◌, ◌<◌, ◌*◌, ◌^◌, ◌++◌, length, slice_index_or, IsTrue};
ghost use Rattle.columnar_core.specs.Bytes.{AreBytes, le_bytes};
ghost use Rattle.columnar_core.specs.Format.{representable, slices_of};
ghost use Rattle.columnar_core.specs.Frame.{Frame, IsLegal, IsStore, framed_slices};
ghost use Rattle.columnar_bytes.specs.Tight.{FramesTightly};
ghost use Rattle.columnar_bytes.specs.Streams.{AreStores, BeginsStore, IsOneStore, IsTornFrom, joined, rest_in, stores_in};
ghost use Rattle.columnar_core.specs.Words.{words, store_bytes};

use super::slices::{byte_slice, slice_count};
use columnar_core::bytes::AsBytes;

/// States that a store frames at most one list of slices.
#[tactic(auto, using(columnar_core::specs::FrameLaws::frames_one))]
pub fn frames_once()
    ensures { (bytes : List ℕ) (xs ys : List (List ℕ)) → Frame bytes xs → Frame bytes ys → xs ≡ ys }
{}

/// States that every number in a column's slices is a byte.
///
/// # Requires
/// A representable type.
pub fn holds_bytes<'a, S: AsBytes<'a>>(item: &S)
    requires { IsTrue (representable S.format) }
    ensures { (i : ℕ) → AreBytes (slice_index_or (slices_of (S.content item.now)) i []) }
{
    for i in 0..slice_count(item) {
        byte_slice(item, i).holds_bytes();
    }
}

/// States that the encoded words, as bytes, frame the slices and no others.
pub fn words_are_framed()
    ensures store { (slices : List (List ℕ)) → 8 * length (words slices) < 2 ^ 64 → ((i : ℕ) → AreBytes (slice_index_or slices i [])) → IsStore (le_bytes (words slices)) }
    ensures slices { (slices : List (List ℕ)) → 8 * length (words slices) < 2 ^ 64 → ((i : ℕ) → AreBytes (slice_index_or slices i [])) → framed_slices (le_bytes (words slices)) ≡ slices }
{}

/// States that the written bytes frame the slices and no others.
pub fn bytes_are_framed()
    ensures legal { (slices : List (List ℕ)) → 8 * length (words slices) < 2 ^ 64 → IsLegal (store_bytes slices) (length slices) }
    ensures slices { (slices : List (List ℕ)) → 8 * length (words slices) < 2 ^ 64 → framed_slices (store_bytes slices) ≡ slices }
{}

/// States that the written bytes are the bytes of the encoded words.
pub fn same_bytes()
    ensures { (slices : List (List ℕ)) → ((i : ℕ) → AreBytes (slice_index_or slices i [])) → le_bytes (words slices) ≡ store_bytes slices }
{}

/// States that the written bytes have zeros between the slices and nothing after them, and that there is only one such
/// store.
pub fn one_tight_store()
    ensures written { (slices : List (List ℕ)) → 8 * length (words slices) < 2 ^ 64 → FramesTightly (store_bytes slices) slices }
    ensures one { (a b : List ℕ) (slices : List (List ℕ)) → AreBytes a → AreBytes b → FramesTightly a slices → FramesTightly b slices → a ≡ b }
{}

/// States that the written bytes are one store, and that bytes begin with at most one store.
pub fn one_first_store()
    ensures written { (slices : List (List ℕ)) → 8 * length (words slices) < 2 ^ 64 → IsOneStore (store_bytes slices) }
    ensures first { (a b x y : List ℕ) → IsOneStore a → IsOneStore b → a ++ x ≡ b ++ y → a ≡ b }
{}

/// States that the stores in bytes and the rest make up the bytes: each is one store, and the rest begins with none.
pub fn stores_are_bytes()
    ensures joined { (bytes : List ℕ) → joined (stores_in bytes) ++ rest_in bytes ≡ bytes }
    ensures stores { (bytes : List ℕ) → AreStores (stores_in bytes) }
    ensures rest { (bytes : List ℕ) → ¬ BeginsStore (rest_in bytes) }
{}

/// States that consecutive stores are found again, with any rest that begins with no store. If bytes are missing at the
/// end, the whole stores are found, in order, and the rest is a beginning of the next one.
pub fn stores_found_again()
    ensures stores { (all : List (List ℕ)) (rest : List ℕ) → AreStores all → ¬ BeginsStore rest → stores_in (joined all ++ rest) ≡ all }
    ensures rest { (all : List (List ℕ)) (rest : List ℕ) → AreStores all → ¬ BeginsStore rest → rest_in (joined all ++ rest) ≡ rest }
    ensures torn { (all : List (List ℕ)) (front back : List ℕ) → AreStores all → joined all ≡ front ++ back → 0 < length back → IsTornFrom all (stores_in front) (rest_in front) }
{}
