//! Laws of written text.
ghost use Rattle.std.specs.Prelude.{◌<◌, ◌^◌, length};
ghost use Rattle.base_trees.specs.Rose.{Rose};
ghost use Rattle.xml_items.specs.declared.label.ItemLabel.{ItemLabel};
ghost use Rattle.xml_read.specs.Sound.{AreItems};
ghost use Rattle.xml_write.specs.Written.{written};
ghost use Rattle.xml_write.specs.ReadBack.{ReadsAs};

/// States that the text of items is a document of the same items. The bound exceeds any memory: the numbers of prefixes are
/// written with 64 bits.
pub fn same_items()
    ensures { (root : Rose ItemLabel) → AreItems root → length (written root) < 2 ^ 64 → ReadsAs (written root) root }
{}
