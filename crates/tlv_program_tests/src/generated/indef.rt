//! The rows of tests/rows/indef.rows. `tests/make-rows` writes this file.

pub(crate) static INDEF: &str = "\
indef.rows:3|indef||3003020105|30800201050000||0|0|
indef.rows:8|indef||30800201050000|30800201050000||0|0|
indef.rows:13|indef||020105|020105||0|0|
indef.rows:17|indef||30810524030401aa04820001bb|308024800401aa0000000004820001bb||0|0|
indef.rows:21|indef||bf81480430020500|bf8148803080050000000000||0|0|
indef.rows:25|indef||30030201|30800201||2|0|fault at 4: F02 input ends inside an encoding
indef.rows:32|indef||308000|3080||2|0|fault at 3: F02 input ends inside an encoding
indef.rows:38|indef||300402010502|3080020105||2|0|fault at 6: F02 input ends inside an encoding
indef.rows:44|indef|||||2|0|fault at 0: F01 empty input
indef.rows:49|indef||308000000030020500|30800000||2|0|fault at 4: F03 end-of-contents outside an indefinite e\
lement
indef.rows:55|indef||3a0904034a6f6e04026573|3a8004034a6f6e040265730000||0|0|
indef.rows:59|indef||2000|20800000||0|0|
indef.rows:63|indef||308002|3080||2|0|fault at 3: F02 input ends inside an encoding
indef.rows:69|indef||300102|3080||2|0|fault at 3: F02 input ends inside an encoding
indef.rows:75|indef||3080020105|3080020105||2|0|fault at 5: F02 input ends inside an encoding
indef.rows:81|indef||308002010502|3080020105||2|0|fault at 6: F02 input ends inside an encoding
indef.rows:87|indef||30053080020105|30803080020105||2|0|fault at 7: F02 input ends inside an encoding
indef.rows:93|indef||0485ffffffffff|0485ffffffffff||2|0|fault at 7: F02 input ends inside an encoding
indef.rows:99|indef||3084ffffffff|3080||2|0|fault at 6: F02 input ends inside an encoding
indef.rows:105|indef||30020000|3080||2|0|fault at 2: F03 end-of-contents outside an indefinite element
indef.rows:111|indef||05000000|0500||2|0|fault at 2: F03 end-of-contents outside an indefinite element
indef.rows:117|indef||000005000000050000|||2|0|fault at 0: F03 end-of-contents outside an indefinite element
indef.rows:122|indef||30800001|3080||2|0|fault at 3: F04 octet 00 not followed by 00
indef.rows:128|indef||300330800000|30803080||2|0|fault at 5: F05 no end-of-contents inside the enclosing leng\
th
indef.rows:134|indef||3005308002010500|30803080020105||2|0|fault at 7: F05 no end-of-contents inside the encl\
osing length
indef.rows:140|indef||9f818080808080808080|||2|0|fault at 9: F06 more than nine octets of tag number
indef.rows:145|indef||04ff|||2|0|fault at 1: F07 length octet ff is reserved
indef.rows:150|indef||0480|||2|0|fault at 1: F08 indefinite length of a primitive
indef.rows:155|indef||048601|||2|0|fault at 2: F09 length of 2^40 or more
indef.rows:160|indef||3003020201|3080||2|0|fault at 3: F11 element runs past the enclosing length
indef.rows:166|indef||30010200|3080||2|0|fault at 3: F11 element runs past the enclosing length
indef.rows:172|indef||000500|||2|0|fault at 0: F03 end-of-contents outside an indefinite element
indef.rows:177|indef||308005000000|308005000000||0|0|
indef.rows:182|indef||308005003005|308005003080||2|0|fault at 6: F02 input ends inside an encoding
";
