//! The rows of tests/rows/extract.rows. `tests/make-rows` writes this file.

pub(crate) static EXTRACT: &str = "\
extract.rows:3|extract --offset 2 --contents||3003020105|05|5:1|0|0|
extract.rows:8|extract --offset 2||3003020105|020105||0|0|
extract.rows:12|extract --offset 0||3003020105|3003020105|2:2,4:4,5:5|0|0|
extract.rows:19|extract --offset 3||3003020105|||1|0|E4 no element at offset 3
extract.rows:25|extract --offset 3 --contents||3003020105|||1|0|E4 no element at offset 3
extract.rows:31|extract --offset 1099511627776||0500|||1|0|E4 no element at offset 1099511627776
extract.rows:36|extract --offset 2||308002010502|020105|4:2,5:3|0|0|
extract.rows:42|extract --offset 0||05000000|0500||0|0|
extract.rows:46|extract --offset 2||30803080050000000000|308005000000||0|0|
extract.rows:51|extract --offset 2 --contents||30803080050000000000|0500||0|0|
extract.rows:55|extract --offset 2||3a8004034a6f6e040265730000|04034a6f6e|4:2,5:3,6:4,7:5|0|0|
extract.rows:63|extract --offset 007 --contents||3a8004034a6f6e040265730000|6573||0|0|
extract.rows:67|extract --offset 0||1f8202820001aa|1f8202820001aa||0|0|
extract.rows:72|extract --offset 0 --contents||04000500|||0|0|
extract.rows:75|extract --offset 0||308002|3080|2:2|2|0|fault at 3: F02 input ends inside an encoding
extract.rows:82|extract --offset 0||308000|3080|2:2|2|0|fault at 3: F02 input ends inside an encoding
extract.rows:89|extract --offset 0||0403aa|0403aa||2|0|fault at 3: F02 input ends inside an encoding
extract.rows:95|extract --offset 5||050004ff|||2|0|fault at 3: F07 length octet ff is reserved
extract.rows:100|extract --offset 0|||||2|0|fault at 0: F01 empty input
extract.rows:105|extract --offset 4||04053003020107|||1|0|E4 no element at offset 4
extract.rows:111|extract --offset 0||040530|040530|2:2,3:3|2|0|fault at 3: F02 input ends inside an encoding
extract.rows:119|extract --offset 1||00050000|||2|0|fault at 0: F03 end-of-contents outside an indefinite ele\
ment
extract.rows:124|extract --offset 0||3080308005000000000001|30803080050000000000|2:2,4:4,6:6,8:8,10:10|0|0|
extract.rows:133|extract --offset 0 --contents||3080308005000000000001|308005000000|4:2,6:4,8:6|0|0|
extract.rows:140|extract --offset 2||308002|||2|0|fault at 3: F02 input ends inside an encoding
extract.rows:146|extract --offset 0||3003020201|3003|2:2|2|0|fault at 3: F11 element runs past the enclosing \
length
extract.rows:153|extract --offset 4||300200000500|||2|0|fault at 2: F03 end-of-contents outside an indefinit\
e element
extract.rows:159|extract --offset 0 --contents||0403aabb|aabb|3:1,4:2|2|0|fault at 4: F02 input ends inside a\
n encoding
extract.rows:167|extract --offset 9||3003020201|||2|0|fault at 3: F11 element runs past the enclosing length
extract.rows:172|extract --offset 0 --contents||308005000000|0500||0|0|
extract.rows:177|extract --offset 2||308005000000|0500||0|0|
extract.rows:182|extract --offset 3||308005000000|||1|0|E4 no element at offset 3
extract.rows:188|extract --offset 2||308005003005|0500||0|0|
extract.rows:193|extract --offset 3||308005003005|||2|0|fault at 6: F02 input ends inside an encoding
";
