//! Laws of sparse files, as contracts of functions that do nothing.
ghost use Rattle.std.specs.Prelude.{◌≡◌, ◌==◌, ◌||◌, ◌≤◌, ℕ, List, length};
ghost use Rattle.lnfs_arguments.specs.Further.{IsLawful};
ghost use Rattle.lnfs_content.specs.Sparse.{is_data, is_hole, next_data, next_hole, IsFirst};
ghost use Rattle.lnfs_operations.specs.Carried.{FurtherCarry};
ghost use Rattle.lnfs_operations.specs.Extra.{AreLawful};
ghost use Rattle.lnfs_sparse_ops.specs.declared.numbers.TheConstants.{OP_ALLOCATE, OP_DEALLOCATE, OP_SEEK, OP_CLONE};
ghost use Rattle.lnfs_sparse_ops.specs.Arguments.{sparse_grammar};
ghost use Rattle.lnfs_sparse_ops.specs.Outcome.{sparse};

/// ALLOCATE, DEALLOCATE, SEEK and CLONE meet what further operations owe: what a level sees of them is determined by what it saw
/// before, and no level sees what those do that it doesn't dominate. So they do where labels are carried alone.
pub fn sparse_files_are_lawful()
    ensures laws { AreLawful sparse }
    ensures labels { FurtherCarry sparse }
{}

/// ALLOCATE, DEALLOCATE, SEEK and CLONE are read beside the operations of the table, and no other number is.
pub fn sparse_grammar_is_lawful()
    ensures laws { IsLawful sparse_grammar }
    ensures numbers { (number : ℕ) → sparse_grammar.serves number
        ≡ (number == OP_ALLOCATE || number == OP_DEALLOCATE || number == OP_SEEK
        || number == OP_CLONE) }
{}

/// What SEEK tells is the first offset of the sort that is asked for, or the size where there is none.
pub fn law_holes()
    ensures data_found { (content : List ℕ) (from : ℕ) → from ≤ length content →
        IsFirst (is_data content) from (length content) (next_data from content) }
    ensures hole_found { (content : List ℕ) (from : ℕ) → from ≤ length content →
        IsFirst (is_hole content) from (length content) (next_hole from content) }
{}
