//! Tables that free nothing.
ghost use Rattle.table_refinement.specs.Unfreed.{TypeFFreesNothing, UnfreedTablesAreNetworks};

/// The source of a table that frees nothing allows, under a plan of any version, exactly what the network of its values does.
pub fn unfreed_tables_are_networks()
    ensures alike { UnfreedTablesAreNetworks }
{}

/// Nothing is free in a table of type f.
pub fn type_f_frees_nothing()
    ensures unfreed { TypeFFreesNothing }
{}
