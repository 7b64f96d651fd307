//! A worked row of the first world, as the contract of a function that does nothing.
ghost use Rattle.std.specs.Prelude.{◌≡◌, ℕ, List, map};
ghost use Rattle.lnfs_site.specs.Site.{first_world};
ghost use Rattle.lnfs_site.specs.Example.{site, Row, row_of, rows, Name, name_of, names, last_numbers};

/// Of three `dir` lines in the root come nodes 2 to 4 of level 0, each of the label of its line, under
/// the cookies 3 to 5; and one below the first of these is the first node of that one's level.
pub fn first_world_of_four_lines()
    ensures nodes { map row_of (first_world site).nodes ≡ rows }
    ensures names { map name_of (first_world site).entries ≡ names }
    ensures lasts { (first_world site).lasts.nodes ≡ last_numbers }
{}
