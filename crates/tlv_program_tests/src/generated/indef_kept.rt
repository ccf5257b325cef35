//! The rows of tests/rows/indef_kept.rows. `tests/make-rows` writes this file.

pub(crate) static INDEF_KEPT: &str = "\
indef_kept.rows:3|indef||02107fffffffffffffffffffffffffffffff|02107fffffffffffffffffffffffffffffff||0|0|
indef_kept.rows:7|indef||02110080000000000000000000000000000000|02110080000000000000000000000000000000||0|0|
indef_kept.rows:11|indef||5f1f0100|5f1f0100||0|0|
indef_kept.rows:15|indef||1f020105|1f020105||0|0|
indef_kept.rows:19|indef||9f81808080808080800000|9f81808080808080800000||0|0|
indef_kept.rows:23|indef||1f0000|1f0000||0|0|
indef_kept.rows:27|indef||048103aabbcc|048103aabbcc||0|0|
indef_kept.rows:31|indef||030205bf|030205bf||0|0|
indef_kept.rows:35|indef||030103|030103||0|0|
indef_kept.rows:39|indef||0300|0300||0|0|
indef_kept.rows:43|indef||030100|030100||0|0|
indef_kept.rows:47|indef||06032a8648|06032a8648||0|0|
indef_kept.rows:51|indef||06028001|06028001||0|0|
indef_kept.rows:55|indef||060178|060178||0|0|
indef_kept.rows:59|indef||06022a86|06022a86||0|0|
indef_kept.rows:63|indef||05000500|05000500||0|0|
indef_kept.rows:67|indef||170b393130353036323334355a|170b393130353036323334355a||0|0|
indef_kept.rows:71|indef||181231393932303732323133323130302e35305a|181231393932303732323133323130302e35305a||\
0|0|
indef_kept.rows:75|indef||180f31393932303732313234303030305a|180f31393932303732313234303030305a||0|0|
indef_kept.rows:79|indef||170b393131333036323334355a|170b393131333036323334355a||0|0|
indef_kept.rows:83|indef||0c06225c0ac3a9ff|0c06225c0ac3a9ff||0|0|
indef_kept.rows:87|indef||1e04004120ac|1e04004120ac||0|0|
indef_kept.rows:91|indef||1e03004120|1e03004120||0|0|
indef_kept.rows:95|indef||0202007f|0202007f||0|0|
indef_kept.rows:99|indef||020180|020180||0|0|
indef_kept.rows:103|indef||010101|010101||0|0|
indef_kept.rows:107|indef||3a8004034a6f6e040265730000|3a8004034a6f6e040265730000||0|0|
indef_kept.rows:111|indef||2380030201000401000000|2380030201000401000000||0|0|
";
