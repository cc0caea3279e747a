//! Laws of all views.

ghost use Rattle.std.specs.Prelude.{ℕ, List, Option};
ghost use Rattle.transcript_view.specs.declared.view.View.{View};
ghost use Rattle.transcript_view.specs.Views.{IsPicture, IsEpochTable, SameView};

/// A text has at most one picture after an entry, and at most one table of epochs.
///
/// Instead of the picture there may be one damage up to that entry, too few entries, or an opening base after
/// the entry. Instead of the table there may be one damage.
pub fn one_view()
    ensures picture { (bytes : List ℕ) (last : Option ℕ) (view also : View) → IsPicture bytes last view → IsPicture bytes last also → SameView view also }
    ensures table { (bytes : List ℕ) (view also : View) → IsEpochTable bytes view → IsEpochTable bytes also → SameView view also }
{}
