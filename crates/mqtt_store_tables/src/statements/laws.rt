//! Which rows stand after a statement.
ghost use Rattle.std.specs.Prelude.{◌≡◌, ◌⊎◌, ℕ, ℤ, ◌∷◌, Bool, false};
ghost use Rattle.sqlite_value.specs.declared.value.Value.TheVariants.{Int};
ghost use Rattle.sqlite_value.specs.Order.{Row};
ghost use Rattle.sqlite_trees.specs.Tree.{Trees};
ghost use Rattle.sqlite_rules.specs.Lists.{Has};
ghost use Rattle.mqtt_store_tables.specs.forms.Tables.{keep_schema};
ghost use Rattle.mqtt_store_tables.specs.schema.Tables.{second_schema};
ghost use Rattle.mqtt_store_tables.specs.declared.schema.tables.Making.{Making};
ghost use Rattle.mqtt_store_tables.specs.statements.Layout.{Layout, IsLayout, schema_of, first_layout, second_layout};
ghost use Rattle.mqtt_store_tables.specs.statements.Content.{is_of, IsShapedAt};
ghost use Rattle.mqtt_store_tables.specs.statements.Removal.{RemovesFrom};
ghost use Rattle.mqtt_store_tables.specs.statements.Put.{PutsInto, numbered, IsFree};

/// The row that is put stands, and each other that was not out.
pub fn row_is_put()
    ensures new { (l : Layout) (tree : ℕ) (put : Row) (gone : Row → Bool) (before after : Trees) (x : Row)
        → PutsInto l tree put gone before after → Has (after tree) x
        → (x ≡ put) ⊎ (Has (before tree) x × (gone x ≡ false)) }
    ensures old { (l : Layout) (tree : ℕ) (put : Row) (gone : Row → Bool) (before after : Trees) (x : Row)
        → PutsInto l tree put gone before after → IsFree put gone (before tree)
        → (x ≡ put) ⊎ (Has (before tree) x × (gone x ≡ false)) → Has (after tree) x }
{}

/// The number that a table gives a row is free, and so is a key whose row is out.
pub fn number_is_free()
    ensures given { (tree : ℕ) (row : Row) (gone : Row → Bool) (db : Trees)
        → IsShapedAt db tree → IsFree (numbered tree row db) gone (db tree) }
    ensures key { (tree : ℕ) (n : ℤ) (rest : Row) (gone : Row → Bool) (db : Trees)
        → IsShapedAt db tree → ((r : Row) → gone r ≡ false → is_of 0 n r ≡ false)
        → IsFree (Int n ∷ rest) gone (db tree) }
{}

/// The rows that are removed are gone, and all others stand.
pub fn row_is_removed()
    ensures new { (l : Layout) (tree : ℕ) (gone : Row → Bool) (before after : Trees) (x : Row)
        → RemovesFrom l tree gone before after → Has (after tree) x
        → Has (before tree) x × (gone x ≡ false) }
    ensures old { (l : Layout) (tree : ℕ) (gone : Row → Bool) (before after : Trees) (x : Row)
        → RemovesFrom l tree gone before after → Has (before tree) x × (gone x ≡ false)
        → Has (after tree) x }
{}

/// Both schemas of the store are laid out as the statements on their first five tables ask.
pub fn schemas_are_laid_out()
    ensures first { (schema_of first_layout ≡ keep_schema) × IsLayout first_layout }
    ensures second { (making : Making) → (schema_of (second_layout making) ≡ second_schema making) × IsLayout (second_layout making) }
{}
