ghost use Rattle.std.specs.Prelude.{List};
ghost use Rattle.lnfs_operations.specs.Extra.{Extra, AreLawful};

/// Further operations beside those of the table: their definition, with rows of their own, and that
/// they meet what such operations owe.
pub trait ExtraRows {
    ghost extra: { Extra };

    ghost rows: { Self → List extra.Row };

    ghost lawful: { AreLawful extra };
}
