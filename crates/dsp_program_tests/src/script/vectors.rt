//! Texts of an independent implementation, with what it makes of them. Each case is ended by the
//! byte FE, and its fields are parted by the byte FD.

/// A text, and its canonical text or its first fault.
pub static TEXTS: &[u8] = b"\
# note {1 \xff\ndspfx 1 input\nwave# a\rnegate {\nq15 4 cmplx_dot output raw \xfddspfx 1\ninput wave q15 4\ncmplx_dot\noutput raw\n\xfe\
dspfx 1\ninput raw q15 3 4294967295\nmax\ncorrelate {-14 15}\ninterpolate 4 {-17 0 19 7 19 10 -5 -7 8 16 -5 -15}\nto q31\nfir {-2147483647 1073741825 -1}\nsparse {# 1000 2000 3000 4000 5000} {3 3 2 1 2 0}\nnegate\nmat_add 2 7 {-17 -15 -9 6 -19 20 -8 13 -8 11 9 -12 18 14}\noutput wave\n\xfdBadNumber at 198\xfe\
raw\r\n\t1\r\n\tinput\r\n\traw\r\n\tq15\r\n\t3\r\n\t4294967295\r\n\tblock\r\n\t256\r\n\toutput\r\n\tdspfx\xfdUnknownWord at 0\xfe\
dspfx 1 input raw# a\rnegate {\nq7 3 001 sparse {11# a\rnegate {\n-16 19 19 009  }{ 60473 60435# a\rnegate {\n29379\t38633 36653 }output raw\n\xfddspfx 1\ninput raw q7 3 1\nsparse {11 -16 19 19 9} {60473 60435 29379 38633 36653}\noutput raw\n\xfe\
dspfx\r\n\twave\r\n\tinput\r\n\twave\r\n\tq7\r\n\t}\r\n\tabs\r\n\toutput\r\n\t1\xfdBadNumber at 8\xfe\
dspfx 1\ninput raw q15 2 8000\nblock 2\nto q31\noutputA0wave\n\xfdBadByte at 50\xfe\
dspfx 001 input #x\r\nraw\nq7 4 4294967295# a\rnegate {\nfir\r\n{ 11 -10 008\n-17\t7 -10 9  4 -8 -3#\n-5 -14# a\rnegate {\n-2# note {1 \xff\n-00000000000000000003 9 18 14 -13# a\rnegate {\n15 18 -00000000000000000002# a\rnegate {\n9\n13 12 6 -19 10 3 0  11 -013 #x\r\n-12 5 12#\n-00000000000000000007 -7 -00000000000000000014 -8 9 13 -015 #x\r\n-011 4 -13 0 5 -4 17\t8 11\t-20 -14\r\n10#\n2 0\t0011 -13 -12}  negate\toutput #x\r\nraw\xfddspfx 1\ninput raw q7 4 4294967295\nfir {11 -10 8 -17 7 -10 9 4 -8 -3 -5 -14 -2 -3 9 18 14 -13 15 18 -2 9 13 12 6 -19 10 3 0 11 -13 -12 5 12 -7 -7 -14 -8 9 13 -15 -11 4 -13 0 5 -4 17 8 11 -20 -14 10 2 0 11 -13 -12}\nnegate\noutput raw\n\xfe\
\x00\r\n\t1\r\n\tinput\r\n\traw\r\n\tq15\r\n\t7\r\t8000\r\n\toffset\r\n\t4\r\n\toutput\r\n\twave\xfdBadByte at 0\xfe\
dspfx\r\n\t1\r\n\tinput\r\n\twave\r\n\tq15\r\n\t2\r\n\tsparse\xfdMissing at 43\xfe\
dspfx 1 input raw q31 2 4294967295 power max max output raw\xfddspfx 1\ninput raw q31 2 4294967295\npower\nmax\nmax\noutput raw\n\xfe\
dspfx 1\ninput wave q31 1\nblock 256\nbiquad64 30 {-1279808781 1978258023 -644272765 -A11896775 -20 -1073741824 -1905692994 2147{\xfdBadNumber at 82\xfe\
dspfx 1\ninput raw q15 1 4294967295\nblock 256\npid 6931 8022 -16384\nscale 2 -16\nbiquad 10 {-20437 15 -18564 -32768 -32768 3276 }\noutput raw\n\xfddspfx 1\ninput raw q15 1 4294967295\nblock 256\npid 6931 8022 -16384\nscale 2 -16\nbiquad 10 {-20437 15 -18564 -32768 -32768 3276}\noutput raw\n\xfe\
dspfx 1 input raw q7 0 3324708661 dot output wave\xfdOutOfRange at 21, low 1, high 16\xfe\
dspfx 1 input wave q7 4 decimate 3 { 1073741823 } cmplx_mult output wave\xfdNoSuchForm at 24, format q7\xfe\
dspfx\r\n\t1\r\n\tinput\r\n\traw\r\n\tq7\r\n\t3\r\n\t44100\r\n\tblock\r\n\t1\r\n\tmax\r\n\toutput\r\n\twave\r\n\twave\xfdUnknownWord at 77\xfe\
dspfx 1 input raw q7 1 8000 abs { -127 -17 -3 109 -1 } max output raw\xfdUnknownWord at 32\xfe\
dspfx\n1\ninput\nraw\nq15\nmult\n1634937967\noutput\nwave\xfdBadNumber at 22\xfe\
dspfx\r\n1 input# a\rnegate {\nwave q31 2 biquad64# note {1 \xff\n00000000000000000030{0#\n0 0 0\t0}add correlate {-1 999 1999 2999 }output\r\nwave\xfddspfx 1\ninput wave q31 2\nbiquad64 30 {0 0 0 0 0}\nadd\ncorrelate {-1 999 1999 2999}\noutput wave\n\xfe\
dspfx 1 wave input q31 1 block 1 route { 0 0 scale 0 0 } output wave\xfdUnknownWord at 8\xfe\
dspfx 1 input raw q31 2 2459586971 block 1 mult output A raw\xfdBadByte at 55\xfe\
dspfx\r\n\t1\r\n\tinput\r\n\traw\r\n\tq31\r\n\t2\r\n\t1\r\n\tmat_trans\r\n\t2\r\n\t3\r\n\tcmplx_mult\r\n\t5\r\n\tcmplx_conj\r\n\t15\r\n\t-415674760\r\n\t-1046559835\r\n\tpid\r\n\t1416888431\r\n\t13\r\n\t-2147483648\r\n\toutput\r\n\twave\xfdChannelsHere at 60, got 2, wanted 4\xfe\
dspfx 1\ninput raw q31 2 1627816894\nmat_scale 3 2 2060367434 7\nrou e {0 0}\nmat_add 1 3 {10 -3 -15}\n0interpolate 1 {658509561}\noutput raw\n\xfdUnknownWord at 62\xfe\
dspfx sparse input raw q15 1 8000 scale 12309 15 1 { -2 1 4 7 655360 } { 58154 48262 14614 17230 32065 } abs output raw\xfdBadNumber at 6\xfe\
dspfx\r\n\t1\r\n\tinput\r\n\traw\r\n\tq7\r\n\t1\r\n\t8000\r\n\tblock\r\n\t256\r\n\toffset\r\n\t20\r\n\tpower\r\n\t13\r\n\tmax\r\n\toutput\xfdUnknownWord at 78\xfe\
\x20dspfx 1 input raw\tq15# note {1 \xff\n2 44100 #x\r\nto q31 output raw\xfddspfx 1\ninput raw q15 2 44100\nto q31\noutput raw\n\xfe\
dspfx\r\n\t1\r\n\tinput\r\n\traw\r\n\tq31\r\n\t1\r\n\t1\r\n\tcmplx_conj\r\n\t-1\r\n\tlattice_iir\r\n\t{\r\n\t14\r\n\t-13\r\n\t3\r\n\t-13\r\n\t17\r\n\t-18\r\n\t1\r\n\t}\r\n\t{\r\n\t1126082875\r\n\t-903509203\r\n\t-2051594815\r\n\t-1100241804\r\n\t31234129\r\n\t-67335126\r\n\t611777740\r\n\t1962485880\r\n\t}\r\n\tmax\r\n\toutput\r\n\twave\xfdChannelsHere at 40, got 1, wanted 2\xfe\
dspfx\t1 input wave q7 02 dot output wave\n\n\xfddspfx 1\ninput wave q7 2\ndot\noutput wave\n\xfe\
dspfx\r\n\t1\r\n\tinput\r\n\traw\r\n\tq7\r\n\t3\r\n\t8000\r\n\tmat_trans\r\n\t3\r\n\t3\r\n\tmat_scale\r\n\t2\r\n\t3\r\n\t1538450405\r\n\t3\r\n\toffset\r\n\t1530088393\r\n\toutput\r\n\twave\xfdNoSuchForm at 42, format q7\xfe\
# a\rnegate {\ndspfx# a\rnegate {\n01 #x\r\ninput raw q15 4 1 block#\n65536# note {1 \xff\nshift 15 biquad 2{-4 -3  -00000000000000000002 -1#\n0 1 2 3 #x\r\n4 5 6\n7 }output raw# the end\xfddspfx 1\ninput raw q15 4 1\nblock 65536\nshift 15\nbiquad 2 {-4 -3 -2 -1 0 1 2 3 4 5 6 7}\noutput raw\n\xfe\
dspfx\r\n\t1\r\n\tinput\r\n\twave\r\n\tq31\r\n\t4\r\n\tblock\r\n\t65536\r\n\tmat_trans\r\n\t1\r\n\t3\r\n\tclip\r\n\t1073741823\r\n\t1073741823\r\n\t2147483647\r\n\t\xc3\xa9\r\n\toutput\r\n\traw\xfdUnknownWord at 106\xfe\
dspfx 1\ninput wave q15 1\nshift -14\noutput raw\n\xfddspfx 1\ninput wave q15 1\nshift -14\noutput raw\n\xfe\
dspfx\n1\ninput\nwave\nq15\n1\ndecimate\ndecimate\n5\n{\n-2390\n}\noutput\nwave\xfdBadNumber at 34\xfe\
\tdspfx\n1 input wave\r\nq7 2 conv_partial 12#\n12\r\n2{ 3\t6  9 12 15 - cmplx_mag_squared#\npower to q7 out\xfdMissing at 47\xfe\
dspfx  1\ninput rawAq7 4 44100\nblock 1\nmax\nnegate\nconv {-27}\nabs\noutput wave\n\xfdBadByte at 18\xfe\
dspfx 1\ninput raw q31 1 8000\nconv {-1993099995 -258719}\nshift -31\nbiquad64 26 {1762570738 -526184049 -620131007 -1475394070 606306001}\nmat_scale 1 3 1578296169 0\nto q7\nconv_partial 0 19 {-20 6 -6 -11}\nto q31\npid -74\xfdMissing at 215\xfe\
dspfx\r\n\t1\r\n\tinput\r\n\traw\r\n\tq7\r\n\t1\r\n\t3274621932\r\n\tblock\r\n\t256\r\n\tmin\r\n\tshift\r\n\t-7\r\n\tscale\r\n\t121\r\n\t7\r\n\tconv\r\n\t{\r\n\t0\r\n\t0\r\n\t0\r\n\t0\r\n\t}\r\n\toutput\r\n\traw\xfddspfx 1\ninput raw q7 1 3274621932\nblock 256\nmin\nshift -7\nscale 121 7\nconv {0 0 0 0}\noutput raw\n\xfe\
\ndspfx 1 input wave q15 1 decimate 5#\n{ -5 251 507} interpolate\t1{ 2# note {1 \xff\n15#\n8} output raw\n\xfddspfx 1\ninput wave q15 1\ndecimate 5 {-5 251 507}\ninterpolate 1 {2 15 8}\noutput raw\n\xfe\
dspfx 01 #x\r\ninput\nraw q7 13 02541177404 block 00256 clip# note {1 \xff\n-2# note {1 \xff\n11 offset  -1 shift -03 output wave#\xfddspfx 1\ninput raw q7 13 2541177404\nblock 256\nclip -2 11\noffset -1\nshift -3\noutput wave\n\xfe\
dspfx\n1\ninput\nraw\nmat_scale\n4\n44100\nblock\n256\ndecimate\n7\n{\n2039265059\n}\nscale\n1219948248\n-24\nto\nq7\nnegate\nnegate\noutput\nraw\xfdUnknownWord at 18\xfe\
dspfx\n1\ninput\nwave\nq31\n4\npower\nconv_partial\n1\n2\n{\n-1\n-1\n-1\n-1\n-1\n-1\n# c\n\n-1\n-1\n-1\n-1\n-1\n}\n-1\n-1\n-1\n-1\n-1\n-1\n-1\n-1\n}\ninterpolate\n2\n{\n-20\n14\n-1\noutput\nwave\xfdUnknownWord at 90\xfe\
dspfx\r\n\t1\r\n\tinput\r\n\twave\r\n\tq15\r\n\t17\r\n\tshift\r\n\t-1\r\n\toutput\r\n\traw\xfdOutOfRange at 33, low 1, high 16\xfe\
dspfx\r\n\t1\r\n\tinput\r\n\traw\r\n\tq7\r\n\t1\r\n\t8000\r\n\t8000\r\n\toutput\r\n\twave\xfdUnknownWord at 42\xfe\
dspfx\r\n\t1\r\n\tinput\r\n\traw\r\n\tq15\r\n\t32767\r\n\t8000\r\n\tmat_add\r\n\t1\r\n\t1\r\n\t{\r\n\t2688\r\n\t}\r\n\tconv\r\n\t{\r\n\t1\r\n\t16383\r\n\t-32767\r\n\t}\r\n\tshift\r\n\t-15\r\n\tscale\r\n\t-15585\r\n\t-16\r\n\toutput\r\n\twave\xfdOutOfRange at 32, low 1, high 16\xfe\
spfx 1\ninput wave q7 4\nblock 2\nconv_artial 32 50 {70 -11 8 -103 127 -10 -2 -20 55}\nscale -28 -8\nclip 64 127\nmx\nroute {1 3 3 3 0 1 0 1 0 1 3 0 0 2 3 0}\noutput raw\n\xfdUnknownWord at 0\xfe\
dspfx\r\n\t1\r\n\tinput\r\n\traw\r\n\tq15\r\n\t3\r\n\t4294967295\r\n\tmat_mult\r\n\t4\r\n\t32768\r\n\t1\r\n\t3\r\n\t{\r\n\t0\r\n\t0\r\n\t0\r\n\t}\r\n\tcmplx_mult_real\r\n\tnegate\r\n\tsub\r\n\toutput\r\n\traw\xfdOutOfRange at 64, low 1, high 64\xfe\
dspfx\r\n\t-10000000000000000000\r\n\tinput\r\n\traw\r\n\tq7\r\n\t2\r\n\t4294967295\r\n\tblock\r\n\t1\r\n\tscale\r\n\t13\r\n\t-8\r\n\tcorrelate\r\n\t{\r\n\t65\r\n\t}\r\n\tshift\r\n\t-6\r\n\toutput\r\n\traw\xfdOutOfRange at 8, low 1, high 2\xfe\
dspfx 1 input raw q15  2\t4294967295 to q31# a\rnegate {\nlms 03 1864504328 { 6#\n-9 -003 2 18# note {1 \xff\n-3 } mat_sub 4 2{1# a\rnegate {\n-2147483648 2147483647# a\rnegate {\n001073741825 -2147483648 2147483647 0 -2147483647 }output wave\xfddspfx 1\ninput raw q15 2 4294967295\nto q31\nlms 3 1864504328 {6 -9 -3 2 18 -3}\nmat_sub 4 2 {1 -2147483648 2147483647 1073741825 -2147483648 2147483647 0 -2147483647}\noutput wave\n\xfe\
dspfx\n1\ninput\nraw\nq31\n3\n44100\nblock\nsub\n1\nabs\nscale\n-6\n30\noutput\nwave\xfdBadNumber at 36\xfe\
dspfx 1\ninput raw q1  4 4294967295\nnegate\nnegate\nabs\nmat_scale 2 8 1638\xfdUnknownWord at 18\xfe\
dspfx 1 input wave q7 1 block 1 conv { 13 -94 -128 } mat_sub 0 output raw\xfdNoSuchForm at 53, format q7\xfe\
dspfx\r\n\t1\r\n\tinput\r\n\traw\r\n\tq31\r\n\t10\r\n\t44100\r\n\troute\r\n\t{\r\n\t5\r\n\t}\r\n\tbiquad64\r\n\t0\r\n\t{\r\n\t1073741824\r\n\t1073741824\r\n\t1073741824\r\n\t1073741824\r\n\t1073741824\r\n\t1073741824\r\n\t1073741824\r\n\t1073741824\r\n\t1073741824\r\n\t1073741824\r\n\t1073741824\r\n\t1073741824\r\n\t1073741824\r\n\t1073741824\r\n\t}\r\n\tmat_trans\r\n\t3\r\n\t2\r\n\tdecimate\r\n\t36\r\n\t{\r\n\t-2131423506\r\n\t}\r\n\toutput\r\n\traw\xfdLength at 266, taps 14, factor 5\xfe\
dspfx 1 input raw q15\xfdMissing at 21\xfe\
dspfx 1 input raw\nq15 4#\n44100 decimate 1{00000000000000000006 -12 -13 #x\r\n19} mat_trans #x\r\n2 4 output wave\n\xfddspfx 1\ninput raw q15 4 44100\ndecimate 1 {6 -12 -13 19}\nmat_trans 2 4\noutput wave\n\xfe\
dspfx 01 input wave q15 2 block 1 abs sub #x\r\neg\xfdUnknownWord at 46\xfe\
dspfx\r\n\t1\r\n\tinput\r\n\traw\r\n\tq7\r\n\t4\r\n\t1\r\n\tblock\r\n\t1\r\n\tconv_partial\r\n\t2\r\n\t5\r\n\t{\r\n\t-59\r\n\t100000000000000000000\r\n\t-54\r\n\t2\r\n\t-19\r\n\t11\r\n\t}\r\n\toffset\r\n\t35\r\n\tmax\r\n\toutput\r\n\twave\xfdBadNumber at 84\xfe\
dspfx\r\n\t1\r\n\tinput\r\n\traw\r\n\tq7\r\n\t2\r\n\t44100\r\n\tadd\r\n\t2\r\n\tblock\r\n\toutput\r\n\twave\xfdUnknownWord at 49\xfe\
dspfx\r\n\t1\r\n\tinput\r\n\tlms\r\n\traw\r\n\tq15\r\n\t4\r\n\t44100\r\n\tnegate\r\n\tcmplx_mult\r\n\tdot\r\n\toutput\r\n\twave\xfdUnknownWord at 20\xfe\
dspfx 1\n\xfdMissing at 8\xfe\
dspfx 001 input#\nraw q15  2 8000 conv_partial 2 9{ -30735 -6 17 -029769 -17 } output raw \xfddspfx 1\ninput raw q15 2 8000\nconv_partial 2 9 {-30735 -6 17 -29769 -17}\noutput raw\n\xfe\
dspfx\r\n\t1\xfdMissing at 9\xfe\
\r\ndspfx 00000000000000000001 input raw q31 2 44100 block#\n256 #x\r\ninterpolate 3 {-2147483648 -2147483647 0 }mat_trans 003 3 biquad64 30{ 314171309 1848849713# note {1 \xff\n857986379 -1818420849 -1009077631 -1544132144 555304665 -1949279556 2087039589 461917658 }output#\nraw\xfddspfx 1\ninput raw q31 2 44100\nblock 256\ninterpolate 3 {-2147483648 -2147483647 0}\nmat_trans 3 3\nbiquad64 30 {314171309 1848849713 857986379 -1818420849 -1009077631 -1544132144 555304665 -1949279556 2087039589 461917658}\noutput raw\n\xfe\
dspfx 1 input raw q15 3 00000000000000000001 block 65536 biquad -0{ -1044 1258 -19693 #x\r\n7526 13082 2872 }sparse {7987\n20489}{38747 2553}output# note {1 \xff\nwave# the end\xfddspfx 1\ninput raw q15 3 1\nblock 65536\nbiquad 0 {-1044 1258 -19693 7526 13082 2872}\nsparse {7987 20489} {38747 2553}\noutput wave\n\xfe\
dspfx\n1\n7\nraw\nq15\n1\n4294967295\nconv_partial\n28\n6\n{\n-28875\n27293\n}\nlattice_iir\n{\n-1\n-1\n-1\n-1\n-1\n}\n{\n1\n-6683\n-3\n8\n32767\n20\n}\ninterpolate\n2\n{\n-32768\n-32768\n-32768\n-32768\n-32768\n-32768\n-32768\n-32768\n}\nscale\n1\n15\ninterpolate\n7\n{\n-3\n-2\n-1\n0\n1\n2\n3\n4\n5\n5\n6\ninput\n8\n9\n10\n11\n12\n12\n13\n14\n15\n16\n17\n18\n19\n20\n21\n22\n23\n24\n}\noutput\nwave\xfdUnknownWord at 8\xfe\
dspfx 1 input raw q15 17 480553145 abs mat_sub 2 3 { -32768 -32768 -32768 -32768 -32768 -32768 } pid 10468 -6095 13 lattice_iir { 16385 0 -1 } { -1 -5806 2 16385 } negate output raw\xfdOutOfRange at 22, low 1, high 16\xfe\
dspfx 1 input wave q7 1 to# note {1 \xff\nq31 min\toutput raw\n\xfddspfx 1\ninput wave q7 1\nto q31\nmin\noutput raw\n\xfe\
dspfx 1\ninput raw q31 4 41803903\nmat_trans 6 2\nbiquad64 8 {1164057168 622165746 -400325286 -1980148587 1022734747}\nconv {94\xfdMissing at 123\xfe\
dspfx# a\rnegate {\n1\tinput #x\r\nwave#\nq31 2 cmplx_mag_squared biquad64 0 { 5 #x\r\n1005 2005# note {1 \xff\n3005 4005 }negate output wave# the end\xfddspfx 1\ninput wave q31 2\ncmplx_mag_squared\nbiquad64 0 {5 1005 2005 3005 4005}\nnegate\noutput wave\n\xfe\
dspfx 1 input raw q15 2 8000 block biquad 256 lattice_iir { 0 1 } { -26376 -9071 -2221 } output raw\xfdBadNumber at 35\xfe\
\x20dspf\xfdUnknownWord at 1\xfe\
dspfx 1 input raw q15 9x 1 1 sparse { 3 -16 -17375 } { 0 3 1 } output raw\xfdBadNumber at 22\xfe\
dspfx 1\ninput raw q15 3 913119777\nblock 65536\nfir \xfdMissing at 50\xfe\
# a\rnegate {\ndspfx 1 int# note {1 \xff\nwave wave q15\xfdUnknownWord at 21\xfe\
dspfx 1 input raw q31 2 1 lms scale -1761926923 8 max decimate 1 q7 { 2147483647 2147483647 2147483647 2147483647 2147483647 2147483647 2147483647 2147483647 2147483647 2147483647 2147483647 } biquad 27 { 1073741824 2147483646 -1549721209 1 -1282978698 } to q7 min mult output wave\xfdBadNumber at 30\xfe\
dspfx 1\ninput raw q31 4 8000\nblock 256\ncmplx_dot\nclip -1728729948 -1728729948\noffset -2147483648\xfdMissing at 96\xfe\
dspfx\r\n\t1\r\n\tinput\r\n\traw\r\n\tq31\r\n\t1\r\n\t1\r\n\tblock\r\n\t1\r\n\tabs\r\n\tdecimate\r\n\t2\r\n\t{\r\n\t16383\r\n\t16383\r\n\t16383\r\n\t16383\r\n\t16383\r\n\t16383\r\n\t}\r\n\tmat_trans\r\n\t2\r\n\t2\r\n\toutput\r\n\traw\xfddspfx 1\ninput raw q31 1 1\nblock 1\nabs\ndecimate 2 {16383 16383 16383 16383 16383 16383}\nmat_trans 2 2\noutput raw\n\xfe\
dspfx 1 input input raw q31 2 1 scale 2147483647 -4 output wave\xfdUnknownWord at 14\xfe\
dspfx 001 input wave q15 4 decimate 7{-4# note {1 \xff\n996\r\n00000000000000001996 2996  3996} route{3#\n1 2 0} output# a\rnegate {\nwave# the end\xfddspfx 1\ninput wave q15 4\ndecimate 7 {-4 996 1996 2996 3996}\nroute {3 1 2 0}\noutput wave\n\xfe\
dspfx\r\n\t1\r\n\tinput\r\n\twave\r\n\tq7\r\n\t2\r\n\tcorrelate\r\n\t{\r\n\t-1\r\n\t0\r\n\t}\r\n\tabs\r\n\tdot\r\n\toutput\r\n\traw\xfddspfx 1\ninput wave q7 2\ncorrelate {-1 0}\nabs\ndot\noutput raw\n\xfe\
dspfx 1 input raw q7 2 8000\xfdMissing at 27\xfe\
dspfx 1 input raw q31 1 8000 sparse { -1 202206650 -1375865845 15 5 } { 14 53 34 19 44 } scale 2147483646 output -13 wave\xfdBadNumber at 106\xfe\
dspfx 1 input  raw q15 3 00000000000000008000 block #x\r\n256 clip\t868 868 cmplx_mult_real# note {1 \xff\ncmplx_conj output wave\xfddspfx 1\ninput raw q15 3 8000\nblock 256\nclip 868 868\ncmplx_mult_real\ncmplx_conj\noutput wave\n\xfe\
dspfx 1 input raw q7 4 8000 to q31 fir -14 9 -13 1 -14 -18 0 18 -17 -13 15 -3 5 -12 11 16 { 1 -1 } output raw\xfdMissing at 39\xfe\
dspfx 1\ninput raw q31 6 1\nlattice_iir {-214\n7483648 2147483647 2147483647 1088566460 10 -449612845} {-1985024611 1073741825 1073741823 -1971021973 201273\xfdMissing at 153\xfe\
dspfx 1 input raw q7\n1#\n001 block 256 route{0# a\rnegate {\n00000000000000000000} conv_partial #x\r\n0 1 {#\n-4\t-002 0 2 4 }fir { 126 -19 30 44  64 60 64 -127 14 -17 -19 -2\n -16 0 122 00000000000000000074 55 -28}mult#\noutput wave\xfddspfx 1\ninput raw q7 1 1\nblock 256\nroute {0 0}\nconv_partial 0 1 {-4 -2 0 2 4}\nfir {126 -19 30 44 64 60 64 -127 14 -17 -19 -2 -16 0 122 74 55 -28}\nmult\noutput wave\n\xfe\
dspfx 1# a\rn\ngate {\ninput wave q7 3 block 1 power offset -00000000000000000101 scale -16 07 sparse{ -107 -5 -113 64\r\n-00128 -6} { 0 0 03 #x\r\n3# a\rnegate {\n3#\n2} min\r\noutput wave#\xfdUnknownWord at 13\xfe\
dspfx 1 input-wave q15 2 }at_trans\xfdUnknownWord at 8\xfe\
dspfx\n1\n}\nraw\nq7\n1\n9x\nabs\noutput\nraw\xfdUnknownWord at 8\xfe\
dspfx\r\n\tlattice_iir\r\n\t1\r\n\tinput\r\n\traw\r\n\tq31\r\n\t1\r\n\t44100\r\n\tmat_scale\r\n\t1\r\n\t1\r\n\t-2147483648\r\n\t30\r\n\toutput\r\n\traw\xfdBadNumber at 8\xfe\
dspfx 1\ninput raw q31 1 1\nfir {-9 -2 -18 -19 5 8 1 5 -14 -5 14 -2 \xfdMissing at 66\xfe\
dspfx 1\ninput raw q7 2 176171079\nblock 65536\ndot\nouput wave\n\xfdUnknownWord at 49\xfe\
dspfx\t01 #x\r\ninput raw\tq31#\n1 44100 decimate 4 {-2147483648  -16#\n-588842882# note {1 \xff\n-00000000002147483648 #x\r\n952296867# a\rnegate {\n766741887}output# a\rnegate {\nraw#\xfddspfx 1\ninput raw q31 1 44100\ndecimate 4 {-2147483648 -16 -588842882 -2147483648 952296867 766741887}\noutput raw\n\xfe\
dsfx 0000\xfdUnknownWord at 0\xfe\
dspfx input raw q15 2 44100 abs cmplx_mag_squared output wave\xfdBadNumber at 6\xfe\
dspfx 1\ninput raw q7 4 44100\nroute {3 2 2 1 3 3 1 2 3\n 2 3 3 3 0 1 2}\noutput raw\n\xfddspfx 1\ninput raw q7 4 44100\nroute {3 2 2 1 3 3 1 2 3 2 3 3 3 0 1 2}\noutput raw\n\xfe\
dspfx 1 input wave q7 2 block 2# note {1 \xff\nroute{ 0 0 01} correlate {  4}#\nmin# a\rnegate {\nfir{ -17 -6  }output wave\xfddspfx 1\ninput wave q7 2\nblock 2\nroute {0 0 1}\ncorrelate {4}\nmin\nfir {-17 -6}\noutput wave\n\xfe\
dspfx 1\ninput raw q15 3 4294967295\nblock 2\nnegate\nconv_partia\xfdUnknownWord at 50\xfe\
dspfx 1 input raw q15 1 4294967295 lattice_fir { -3 -6 18 -18 -10 9 -11 13 -10 -3 -7 -6 } output raw\xfddspfx 1\ninput raw q15 1 4294967295\nlattice_fir {-3 -6 18 -18 -10 9 -11 13 -10 -3 -7 -6}\noutput raw\n\xfe\
dspfx 1 input wave q31 12 min decimate 3 { 1577579780 -1716073594 -1810053213 } dot output wave\xfdChannelsHere at 80, got 12, wanted 2\xfe\
dspfx\r\n\t10000000000000000000\r\n\tinput\r\n\twave\r\n\tq15\r\n\t2\r\n\tadd\r\n\tmat_add\r\n\t3\r\n\t1\r\n\t{\r\n\t10\r\n\t7\r\n\t-15\r\n\t}\r\n\tlattice_iir\r\n\t{\r\n\t12\r\n\t-18\r\n\t}\r\n\t{\r\n\t2\r\n\t3\r\n\t4\r\n\t}\r\n\toutput\r\n\twave\xfdOutOfRange at 8, low 1, high 2\xfe\
dspfx 1\ninput raw q7 1 1201265617\nblock 256\nsparse {65 109 -31 -64} {35 0 4 202}\nmin\noutput wave\n\xfddspfx 1\ninput raw q7 1 1201265617\nblock 256\nsparse {65 109 -31 -64} {35 0 4 202}\nmin\noutput wave\n\xfe\
dspfx\r\n\t1\r\n\tinput\r\n\traw\r\n\tq31\r\n\t2\r\n\t4294967295\r\n\tblock\r\n\t1\r\n\tmult\r\n\tpower\r\n\tpid\r\n\t-10\r\n\t-10\r\n\t6\r\n\t94269369\r\n\tpower\r\n\tbiquad64\r\n\t21\r\n\t{\r\n\t1652308256\r\n\t-18\r\n\t9\r\n\t1\r\n\t1073741823\r\n\t}\r\n\tmax\r\n\troute\r\n\t{\r\n\t0\r\n\t}\r\n\toutput\r\n\twave\xfdUnknownWord at 98\xfe\
dspfx 1 input wave q31 11 biquad 0 { -1882584119 -1022602347 -2126761099 554075229 416111333 1541521704 -1958755487 1664186439 2013496461 1669544112 } clip -2147483647 1325630228 biquad64 1 { -2091566934 1073741823 -1399493021 1 -5 } mat_sub output raw\xfdBadNumber at 242\xfe\
dspfx 0 input raw q31 2 44140 add biquad64 30{ \xfdOutOfRange at 6, low 1, high 2\xfe\
dspfx# a\rnegate {\n1 input#\nraw# a\rnegate {\nq7 02\n044100 max shift -7 offset 0 fir{ -2 #x\r\n-2 -02 -00000000000000000002 -2 -2}output wave\xfddspfx 1\ninput raw q7 2 44100\nmax\nshift -7\noffset 0\nfir {-2 -2 -2 -2 -2 -2}\noutput wave\n\xfe\
dspfx 1\ninpu t raw q31 1 14124377\nclip -1477119503 891078337\noutput waave\n\xfdUnknownWord at 8\xfe\
dspfx  1 input# a\rnegate {\nraw q15 1#\n1685973414 offset 10183 output raw\xfddspfx 1\ninput raw q15 1 1685973414\noffset 10183\noutput raw\n\xfe\
dspfxA1\ninput raw q15 2 44100\nmat_scale 24 -\xfdBadByte at 5\xfe\
\x20 dspfx 1 input raw q15 06 8000\r\nfir{ -1 -1 -1# a\rnegate {\n} mat_mult 00000000000000000003  7  2 {-4 252- #x\r\n0508#\n764# a\rnegate {\n1020# a\rnegate {\n1276 1532 1788 2044 0000000000000\xfdBadNumber at 101\xfe\
dspfx 1 input wave q15 1\ncorrelate {3955 16383  32767 32767}output# note {1 \xff\nwave \xfddspfx 1\ninput wave q15 1\ncorrelate {3955 16383 32767 32767}\noutput wave\n\xfe\
ds\xfdUnknownWord at 0\xfe\
dspfx\r\n\t1\r\n\t{}\r\n\traw\r\n\tq15\r\n\t2\r\n\t2\r\n\t8000\r\n\tmin\r\n\tpid\r\n\t-16\r\n\t-23999\r\n\t-19690\r\n\toutput\r\n\twave\xfdUnknownWord at 12\xfe\
dspfx 1\ninput raw q31 2 4017}72431\nblock 256\nsub\nto q7\noutput wave\n\xfdUnknownWord at 28\xfe\
dspfx# note {1 \xff\n1# note {1 \xff\ninput wave q15\t2 max#\ndot\r\nmat_mult 2 1 1{-031085  } output wave\xfddspfx 1\ninput wave q15 2\nmax\ndot\nmat_mult 2 1 1 {-31085}\noutput wave\n\xfe\
dspfx 1 input raw q31 1 8000 abs mat_sub 4 1{ 1 -2147483648 -2147483647 1073741825 } min  mat_sub 1 03{-1# note {1 \xff\n-2 -1 } output wave# the end\xfddspfx 1\ninput raw q31 1 8000\nabs\nmat_sub 4 1 {1 -2147483648 -2147483647 1073741825}\nmin\nmat_sub 1 3 {-1 -2 -1}\noutput wave\n\xfe\
dspfx 1\ninpu} raw q31 15 4294967295\noutput wave\n\xfdUnknownWord at 8\xfe\
dspfx\r\n\t1\r\n\tinput\r\n\t-2147483649\r\n\tq7\r\n\t11\r\n\t4294967295\r\n\tto\r\n\tq15\r\n\tfir\r\n\t{\r\n\t-27013\r\n\t1606\r\n\t-21790\r\n\t-32767\r\n\t5\r\n\t-18\r\n\t}\r\n\tclip\r\n\t-32768\r\n\t17764\r\n\toutput\r\n\traw\xfdUnknownWord at 20\xfe\
ds{fx {\ninput raw q\xfdUnknownWord at 0\xfe\
dspfx 1 input raw\nq15 10\t8000 lattice_fir{ -17 -4627\t32767} output raw\xfddspfx 1\ninput raw q15 10 8000\nlattice_fir {-17 -4627 32767}\noutput raw\n\xfe\
ds pfx 1\ninput wave q31 A3\nblock 65536\nma{t_scale 6 1 1073741823 30\noutput wave\n\xfdUnknownWord at 0\xfe\
dspfx 1\ninput w0ave q31 4\nsparse {-1641602558 8} {1 7}\noutput wave\n\xfdUnknownWord at 14\xfe\
dspfx 1 input #x\r\nraw q31# a\rnegate {\n2 2595310984 cmplx_mag_squared output raw\n\xfddspfx 1\ninput raw q31 2 2595310984\ncmplx_mag_squared\noutput raw\n\xfe\
dspfx#\n1#\ninput# note {1 \xff\nraw  q15 3 1\r\npid -14#  note {1 \xff\n-14 03276_7 -1#\nlattice_fir 7{-24484 29559}\r\noutput wave\xfdBadNumber at 65\xfe\
dspfx\r\n\tq15\r\n\t1\r\n\tinput\r\n\twave\r\n\tq15\r\n\t2\r\n\tcorrelate\r\n\t{\r\n\t10\r\n\t-17\r\n\t-14\r\n\t18\r\n\t-2\r\n\t-14\r\n\t-3\r\n\t20\r\n\t-2\r\n\t18\r\n\t17\r\n\t2\r\n\t-9\r\n\t-14\r\n\t}\r\n\tmin\r\n\tconv_partial\r\n\t0\r\n\t1\r\n\t{\r\n\t0\r\n\t-8\r\n\t-15\r\n\t-12\r\n\t}\r\n\tto\r\n\tq31\r\n\toutput\r\n\traw\xfdBadNumber at 8\xfe\
dspx 1 input raw #x\r\nq15 02 4061613568 scale\t22788 -2 output raw# the end\xfdUnknownWord at 0\xfe\
dspfx 1 input correlate q15 2 44100 pid 32767 -20 0 fir { -10 1054 12034 18 -8 } add negate to q31 output raw\xfdUnknownWord at 14\xfe\
dspfx\n1\ninput\nwave\nq31\n2\nbiquad64\n1\n{\n6\n-6\ndot\n0\n-7\n-18\n-1\n6\n12\n-1\n}\noutput\nraw\xfdBadNumber at 43\xfe\
dspfx 1 input wave q31 1 block 1 interpolate 7 { -1 -1 -1 -1 -1 -1 -1 -1 -1 -1 -1 -1 -1 -1 } cmplx_conj q7 abs max output wave\xfdChannelsHere at 93, got 1, wanted 2\xfe\
dspfx 00000000000000000001 input\ninput  raw q15  1 4294967295 mat_trans 2 002#output raw\xfdUnknownWord at 33\xfe\
dspfx\r\n\t1\r\n\tinput\r\n\traw\r\n\tq31\r\n\t1\r\n\t4294967295\r\n\tmat_sub\r\n\t3\r\n\t2\r\n\t{\r\n\t2147483647\r\n\t2147483647\r\n\t2147483647\r\n\t2147483647\r\n\t2147483647\r\n\t2147483647\r\n\t}\r\n\tbiquad64\r\n\t5\r\n\t{\r\n\t2147483646\r\n\t-2147483648\r\n\t11\r\n\t-19\r\n\t-257633341\r\n\t459498206\r\n\t-2049098356\r\n\t-12\r\n\t-1599768650\r\n\t0\r\n\t}\r\n\tmat_sub\r\n\t6\r\n\t2\r\n\t{\r\n\t-1\r\n\t999\r\n\t1999\r\n\t2999\r\n\t3999\r\n\t4999\r\n\t5999\r\n\t6999\r\n\t7999\r\n\t8999\r\n\t9999\r\n\t10999\r\n\t}\r\n\tmult\r\n\t720525767\r\n\t-320845887\r\n\t0\r\n\toutput\r\n\traw\xfdChannelsHere at 385, got 1, wanted 2\xfe\
dspfx 1 input raw q31 5 4294967295 conv { 2147483647 -2147483648 2016627807 -8 10 } output wave\xfddspfx 1\ninput raw q31 5 4294967295\nconv {2147483647 -2147483648 2016627807 -8 10}\noutput wave\n\xfe\
dspfx# note {1 \xff\n1 input wave q7 4  block 256 correlate {#\n-13 -63 -6\n-50 108 1 22 0} out } put wave\xfdUnknownWord at 86\xfe\
dspfx\n1\ninput\nwave\nq7\n3\nmat_sub\nroute\n{\n1\n1\n2\n2\n}\nroute\n{\n0\n1\n}\nfir\n{\n3\n-21\n-45\n}\nabs\nadd\nsparse\n{\n9\n63\n-1\n12\n16\n-128\n27\n2\n3\n12\n63\n-5\n-127\n0\n50\n}\n{\n1\n0\n1\n2\n2\n0\n0\n1\n3\n1\n1\n0\n2\n3\n1\n}\nmax\nclip\n-60\n34\noutput\nwave\xfdNoSuchForm at 24, format q7\xfe\
dspfx 1 input raw q15 12 4294967295 sub q31 shift 5 lattice_fir 8 3 output raw\xfdChannelsHere at 36, got 12, wanted 2\xfe\
dspfx\n1\ninput\nraw\nq31\n4\n44100\nblock\n1\nfir\n{\n3\n5\n}\nabs\nroute\n{\n2\nlattice_iir\n3\n}\noutput\nraw\xfdBadNumber at 64\xfe\
dspfx 1 input wave q31 2 sub negate abs biquad 9 { -87527247 2076305615 84746991 -23880807 890646312 1033296395 -1615989353 -2095954911 894401227 1775613264 949736862 -1825665593 -898079791 1285167927 -1766464668 } \x00 sparse { 1 -1 0 -2147483648 0 } { 46953 385 61881 960 8885 } mat_sub 2 4 { -591995080 -2147483648 1073741824 1073741825 -1678970105 -1073741824 -20 1 } fir { 2147483647 2147483647 2147483647 2147483647 2147483647 } interpolate 3 { -2 -7 -6 3 13 15 } fir { 1749159129 16 103428119 -474268155 -1746268573 1 1073741825 1073741825 -19 2147483647 -547929944 -975445490 } output raw\xfdBadByte at 215\xfe\
dspfx 1 input raw q7 4 44100 correlate { 8 } scale 14 7 output raw\xfddspfx 1\ninput raw q7 4 44100\ncorrelate {8}\nscale 14 7\noutput raw\n\xfe\
dspfx\r\n\t1\r\n\tinput\r\n\traw\r\n\tq15\r\n\t2\r\n\t2282834800\r\n\t2282834800\r\n\toutput\r\n\twave\xfdUnknownWord at 49\xfe\
dspfx 1\ninput raw q7 1 4294967295\nscale 127 7\ncorrelate {-7 24 0 -1 -128 1 77 53 -128 56 -20 -4 -14 72 -99 -128 9 4 -88 -9 -80 63 71 -6110 -127 6 126 -3 -45 127 12 31 -13 -89 \n6}\noffset 126\nconv {127}\nmin\noutput raw\n\xfdOutOfRange at 133, low -128, high 127\xfe\
dspfx 1\ninput raw q15 3 8000\ndecimate 3 {-10 -14 -15}\nlattice_fir {32767 32766 32767 0 -32768 16385 -32768 32767}\nsparse {16383 5420 20 -32768 0} {1 0 0 1 3}\no\xfdUnknownWord at 158\xfe\
dspfx# note {1 \xff\n1 input raw q15 1 3174047292 to q31 clip 1577531995  1577531995 clip -2\r\n1936406733 mat_trans 2 002 to\tq7 abs power scale 127 2 offset 65 offset -8 output raw\n\n\xfddspfx 1\ninput raw q15 1 3174047292\nto q31\nclip 1577531995 1577531995\nclip -2 1936406733\nmat_trans 2 2\nto q7\nabs\npower\nscale 127 2\noffset 65\noffset -8\noutput raw\n\xfe\
dspfx 1 input\xfdMissing at 13\xfe\
dspfx 1 input wave q7 1 correlate { 112 -106 -20 29 -105 -125 } clip raw\xfdBadNumber at 69\xfe\
dspfx\n1\ninput\nraw\nq7\n2\n8000\n8000\nto\nq31\noutput\nraw\xfdUnknownWord at 28\xfe\
dspfx 1 input wave q7 002 negate output wave\xfddspfx 1\ninput wave q7 2\nnegate\noutput wave\n\xfe\
dspfx 1 input wave q7 4 block 2 conv { -10 -56 } shift 7 output raw\xfddspfx 1\ninput wave q7 4\nblock 2\nconv {-10 -56}\nshift 7\noutput raw\n\xfe\
dspfx\r\n\t1\r\n\tinput\r\n\traw\r\n\tq31\r\n\t2\r\n\t507437572\r\n\tfir\r\n\t{\r\n\t-1\r\n\t}\r\n\tscale\r\n\t1073741825\r\n\t-26\r\n\tcmplx_mult_real\r\n\tcmplx_conj\r\n\tmult\r\n\tmat_scale\r\n\t5\r\n\t3\r\n\t404983593\r\n\t6\r\n\tscale\r\n\t-328956112\r\n\t-1\r\n\tlattice_fir\r\n\t1\r\n\t1\r\n\t{\r\n\t0\r\n\t}\r\n\toutput\r\n\traw\xfdNoSuchForm at 94, format q31\xfe\
# a\rnegate {\ndspfx 1 input\r\nraw q31\r\n1 8000 mat_add 1  1 #x\r\n{ 1586267826# a\rnegate {\n}output raw\xfddspfx 1\ninput raw q31 1 8000\nmat_add 1 1 {1586267826}\noutput raw\n\xfe\
dspfx\r\n\t1\r\n\tinput\r\n\traw\r\n\tq31\r\n\t16\r\n\t8000\r\n\toutput\xfdMissing at 50\xfe\
dspfx 1\ninput raw q15 1 4294967295\ndecimate 2 {-26113 30345 27242 32767}\npower\nfir {8280 18647 -15696 29433 27910 3761 11365 11177 25238 11411 5555 27470 -13758 31492 -28029 8197 -31652 22574}\npower\nroute {0 0 }\noutput wave\n\xfddspfx 1\ninput raw q15 1 4294967295\ndecimate 2 {-26113 30345 27242 32767}\npower\nfir {8280 18647 -15696 29433 27910 3761 11365 11177 25238 11411 5555 27470 -13758 31492 -28029 8197 -31652 22574}\npower\nroute {0 0}\noutput wave\n\xfe\
dspfx 1\ninput wave q7 2\nclip 90 95}\noutput wave\n\xfdUnknownWord at 34\xfe\
input 1 dspfx wave q31 2 to q15 output wave\xfdUnknownWord at 0\xfe\
dspfx 1 input wave q31 2 block 2 cmplx_conj max decimate 2 { 564976210 -14 -14 } cmplx_mag_squared mat_scale 3 A 2 -344865237 0 negate shift 31 decimate 5 { -798976852 -540843649 1503258288 -345055628 } output raw\xfdBadByte at 111\xfe\
dspfx 1\ninput raw q7 7 80_00\nblock 2\nroute {4 5}\nadd\noutput wave\n\xfdBadNumber at 23\xfe\
dspfx 1 input -1 q7 1 8000 sparse { 64 -127 127 raw } { 14 54 27 52 } conv { 127 } min output wave\xfdUnknownWord at 14\xfe\
\xfdMissing at 0\xfe\
dspfx 1\ninput raw q15 2 4294967295\nblock 2\nmult\nmat_sub 7 1 {11023 -1955 -17227 26451 6598 29287 -6512}\nclip -12039 -12039\nmin\npower\nsparse {16385 16385 16385 16385 16385} {2 2 1 0 1}\nroute {0}\nmat_sub 2   {16384 -16384 -1 16383 -32768 16385}\noutput raw\n\xfdBadNumber at 206\xfe\
dspfx 1\ninput- raw q15 2 3489921444\nmult\npower\noutput raw\n\xfdUnknownWord at 8\xfe\
dspfx 1 input raw q31 1 44100 {1} conv_partial 1 14 { 1110918012 } output raw\xfdUnknownWord at 30\xfe\
dspfx 1\ninput raw q7 2 8000\nblock 1\npower\noutput wave{\n\xfdUnknownWord at 53\xfe\
dspfx 1  input\nraw\tq7 4\t1 route{ #x\r\n0 3 }output #x\r\nwave\xfddspfx 1\ninput raw q7 4 1\nroute {0 3}\noutput wave\n\xfe\
dspfx  1\ninut raw q15 4 8000\noutput wave\n\xfdUnknownWord at 9\xfe\
\xfdMissing at 0\xfe\
dspfx 1 input raw q7 2 44100 to q31 mat_scale 5 3 0 0 output max conv { 1095837945 1709266761 -906311997 1414992777 } output raw\xfdUnknownWord at 61\xfe\
dspfx 1 input raw q31 4 8000 conv { 2147483647 1073741823 -2147483648 2147483647 -2147483648 -1073741824 } mat_scale fir { 1064209651\xfdBadNumber at 117\xfe\
dspfx 1\nin\xfdUnknownWord at 8\xfe\
\x20dspfx 1 #x\r\ninput raw q7 3\t8000  conv{126\xfdMissing at 42\xfe\
dspfx\r\n\t1\r\n\tinput\r\n\traw\r\n\tq31\r\n\t2\r\n\t1\r\n\t1\r\n\tinterpolate\r\n\t6\r\n\t{\r\n\t10\r\n\t15\r\n\t12\r\n\t-17\r\n\t5\r\n\t}\r\n\tscale\r\n\t1326471789\r\n\t-31\r\n\toutput\r\n\twave\xfdUnknownWord at 40\xfe\
dspfx 1\ninput raw q7 1 4294967295\nmin\nconv {-3 -17 -10 5 5 -14}\nconv_partial 0 8589934591 {1 2 3 4 5}\noutput wave\n\xfdOutOfRange at 79, low 1, high 4294967295\xfe\
dspfx 1\ninput raw q31 1 4294967295\nnegate\noffset 18446744075857035263\nroute {0 0 0 0}\noutput wave\n\xfdOutOfRange at 49, low -2147483648, high 2147483647\xfe\
dspfx 1\ninput raw q7 1 1776650166\nscale -129 6\npower\noutput wave\n\xfdOutOfRange at 40, low -128, high 127\xfe\
dspfx 1\ninput raw q31 3 8000\nto q15\nconv {-9 -16 6 6 -3}\nbiquad 13 {-3 -2 -1 0 1 2}\noutput raw\n\xfddspfx 1\ninput raw q31 3 8000\nto q15\nconv {-9 -16 6 6 -3}\nbiquad 13 {-3 -2 -1 0 1 2}\noutput raw\n\xfe\
dspfx 1\ninput raw q31 1 8000\ninterpolate 1 {390370459 390370459}\nbiquad 24 {-13 12 -7 -1 -13 5 -16 -14 -19 0 20 -6 -5 15 -19}\noutput raw\n\xfddspfx 1\ninput raw q31 1 8000\ninterpolate 1 {390370459 390370459}\nbiquad 24 {-13 12 -7 -1 -13 5 -16 -14 -19 0 20 -6 -5 15 -19}\noutput raw\n\xfe\
dspfx 1\ninput raw q15 3 4294967295\nbiquad 1 {-32769 16384 16136 -23080 5858 11325 16383 -12 -29443 19622 23217 9 6265 32766 26650 23282 -32767 3}\npower\ncmplx_mult_real\noutput raw\n\xfdOutOfRange at 45, low -32768, high 32767\xfe\
dspfx 1 input raw q15 1 8000 clip -1 1 clip -1 1 clip -1 1 clip -1 1 clip -1 1 clip -1 1 clip -1 1 clip -1 1 clip -1 1 clip -1 1 clip -1 1 clip -1 1 clip -1 1 clip -1 1 clip -1 1 clip -1 1 clip -1 1 clip -1 1 clip -1 1 clip -1 1 clip -1 1 clip -1 1 clip -1 1 clip -1 1 clip -1 1 clip -1 1 clip -1 1 clip -1 1 clip -1 1 clip -1 1 clip -1 1 clip -1 1 clip -1 1 clip -1 1 clip -1 1 clip -1 1 clip -1 1 clip -1 1 clip -1 1 clip -1 1 clip -1 1 clip -1 1 clip -1 1 clip -1 1 clip -1 1 clip -1 1 clip -1 1 clip -1 1 clip -1 1 clip -1 1 clip -1 1 clip -1 1 clip -1 1 clip -1 1 clip -1 1 clip -1 1 clip -1 1 clip -1 1 clip -1 1 clip -1 1 clip -1 1 clip -1 1 clip -1 1 clip -1 1 clip -1 1 clip -1 1  output raw\xfdTooMany at 669, limit 64\xfe\
dspfx 1 input raw q15 65537 8000 output raw\xfdOutOfRange at 22, low 1, high 16\xfe\
dspfx 1 input raw q31 4 1 to q31 fir {1}\xfdNoSuchForm at 29, format q31\xfe\
dspfx 2 input raw q15 1 8000 table n0 {0} table n1 {1} table n2 {2} table n3 {3} table n4 {4} table n5 {5} table n6 {6} table n7 {7} table n8 {8} table n9 {9} table n10 {10} table n11 {11} table n12 {12} table n13 {13} table n14 {14} table n15 {15} table n16 {16} table n17 {17} table n18 {18} table n19 {19} table n20 {20} table n21 {21} table n22 {22} table n23 {23} table n24 {24} table n25 {25} table n26 {26} table n27 {27} table n28 {28} table n29 {29} table n30 {30} table n31 {31} table n32 {32} table n33 {33} table n34 {34} table n35 {35} table n36 {36} table n37 {37} table n38 {38} table n39 {39} table n40 {40} table n41 {41} table n42 {42} table n43 {43} table n44 {44} table n45 {45} table n46 {46} table n47 {47} table n48 {48} table n49 {49} table n50 {50} table n51 {51} table n52 {52} table n53 {53} table n54 {54} table n55 {55} table n56 {56} table n57 {57} table n58 {58} table n59 {59} table n60 {60} table n61 {61} table n62 {62} sparse {1 2} b output table\xfdUnknownWord at 967\xfe\
dspfx 1\ninput raw q15 2 44100\ncorrelate {-5 995 1995 2995 3995}\nclip -32768 -16295\nscale 18787 -16\noutput wave\n\xfddspfx 1\ninput raw q15 2 44100\ncorrelate {-5 995 1995 2995 3995}\nclip -32768 -16295\nscale 18787 -16\noutput wave\n\xfe\
dspfx 1\ninput raw q31 4 1\nfir {2147483647 2147483647 2147483647 2147483647 2147483647 2147483647}\nmat_sub 4 65 {-1144366539 -648571006 1286092123 620932831 -1637816628 -1649005695 -1301469838 -1098820796 1171250540 496843456 -1790948910 444715311 1554631300 1355478528 -12631646 -2116596169}\noutput wave\n\xfdOutOfRange at 108, low 1, high 64\xfe\
dspfx 1\ninput raw q7 4 8000\nconv_partial 0 -4294967295 {10 -123 -128 5 -127}\nroute {2 1}\nconv {3 -17 1 10 -1 10 -2}\noutput wave\n\xfdOutOfRange at 43, low 1, high 4294967295\xfe\
dspfx 1\ninput raw q7 3 4294967295\nshift 7\nsparse {127 64 65 -1 126 65} {42 52 15 44 40 60}\noutput raw\n\xfddspfx 1\ninput raw q7 3 4294967295\nshift 7\nsparse {127 64 65 -1 126 65} {42 52 15 44 40 60}\noutput raw\n\xfe\
dspfx 1\ninput wave q31 1\nmin\nroute {0 0 0 0 0 1}\nscale 1073741824 30\noutput raw\n\xfdOutOfRange at 46, low 0, high 0\xfe\
dspfx 1\ninput wave q7 1\nconv_partial 6 2 {}\noutput raw\n\xfdLength at 42, taps 0, factor 1\xfe\
dspfx 1 input raw q15 1 8000 power power power power power power power power power power power power power power power power power power power power power power power power power power power power power power power power power power power power power power power power power power power power power power power power power power power power power power power power power power power power power power power power power power  output raw\xfdTooMany at 413, limit 64\xfe\
dspfx 1 input raw q15 1 8000 correlate {1} negate negate negate correlate {1 2} output raw\xfdTooMany at 64, limit 1\xfe\
dspfx 00000000000000000001 input raw q15 1 8000 output raw\xfddspfx 1\ninput raw q15 1 8000\noutput raw\n\xfe\
dspfx 1 input raw q15 5 1 route {0} conv {1}\xfdMissing at 44\xfe\
dspfx 2 input raw q15 2 8000 block 4 table a {} sparse c {0 1} output table\xfdUnknownWord at 55\xfe\
dspfx 1\ninput raw q31 4 44100\nto q15\nroute {3 1 3 2}\nmat_sub 4294967360 2 {32767 -16 4 6 -5 16364 27611 1 4 15 -975 18058}\noutput wave\n\xfdOutOfRange at 61, low 1, high 64\xfe\
dspfx 1\ninput wave q15 1\nmat_sub 1 3 {-4 -3 -2}\nmat_add 0 2 {-18 5 -1 16 16 4}\noutput wave\n\xfdOutOfRange at 56, low 1, high 64\xfe\
dspfx 1\ninput raw q31 2 44100\nbiquad64 30 {-1 17 0 17 1073741825}\ncorrelate {19 -1995776361 5 3 -1892984445 -13 -20 -16 322722292 680403135 -908026486 -2147483648 -1063386753 -1073741824 -1056760475 -1082035533 -1 -1393423399 2147483647 168113687 -2147483648 19 0 495895307 -7 -16 1073741823 17 9 -90176724 -2147483648 -593305598 1501720751 -18 -1530961844 1073741823 -2147483647 -868644122 -590036542 14 2147483647 -801293544 1 -2147483647 12}\noutput raw\n\xfddspfx 1\ninput raw q31 2 44100\nbiquad64 30 {-1 17 0 17 1073741825}\ncorrelate {19 -1995776361 5 3 -1892984445 -13 -20 -16 322722292 680403135 -908026486 -2147483648 -1063386753 -1073741824 -1056760475 -1082035533 -1 -1393423399 2147483647 168113687 -2147483648 19 0 495895307 -7 -16 1073741823 17 9 -90176724 -2147483648 -593305598 1501720751 -18 -1530961844 1073741823 -2147483647 -868644122 -590036542 14 2147483647 -801293544 1 -2147483647 12}\noutput raw\n\xfe\
dspfx 1\ninput raw q15 4 8000\nshift 18446744073709551631\noutput raw\n\xfdOutOfRange at 35, low -15, high 15\xfe\
dspfx 1\ninput wave q31 4\ncorrelate {-1009914281 -1610399658 -140223315 -1562339844 -596444593}\nto q15\nshift -13\noutput wave\n\xfddspfx 1\ninput wave q31 4\ncorrelate {-1009914281 -1610399658 -140223315 -1562339844 -596444593}\nto q15\nshift -13\noutput wave\n\xfe\
dspfx 1\ninput raw q7 1 4294967295\nconv_partial 2 6 {5 5 5}\nroute {}\nroute {1 3 0 6 8}\noutput raw\n\xfdLength at 66, taps 0, factor 1\xfe\
dspfx 1 input raw q15 1 8000 abs abs abs abs abs abs abs abs abs abs abs abs abs abs abs abs abs abs abs abs abs abs abs abs abs abs abs abs abs abs abs abs abs abs abs abs abs abs abs abs abs abs abs abs abs abs abs abs abs abs abs abs abs abs abs abs abs abs abs abs abs abs abs abs  output raw\xfddspfx 1\ninput raw q15 1 8000\nabs\nabs\nabs\nabs\nabs\nabs\nabs\nabs\nabs\nabs\nabs\nabs\nabs\nabs\nabs\nabs\nabs\nabs\nabs\nabs\nabs\nabs\nabs\nabs\nabs\nabs\nabs\nabs\nabs\nabs\nabs\nabs\nabs\nabs\nabs\nabs\nabs\nabs\nabs\nabs\nabs\nabs\nabs\nabs\nabs\nabs\nabs\nabs\nabs\nabs\nabs\nabs\nabs\nabs\nabs\nabs\nabs\nabs\nabs\nabs\nabs\nabs\nabs\nabs\noutput raw\n\xfe\
dspfx +1 input raw q15 1 8000 output raw\xfdBadByte at 6\xfe\
dspfx 1 input raw q7 3 1 correlate {1} abs abs abs abs abs abs abs abs abs abs abs abs abs abs abs abs abs abs abs abs abs abs abs abs abs abs abs abs abs abs abs abs abs abs abs abs abs abs abs abs abs abs abs abs abs abs abs abs abs abs abs abs abs abs abs abs abs abs abs abs abs abs conv q15\xfdMissing at 292\xfe\
dspfx 2 input raw q15 1 8000 table { {0 0} lattice_fir c output table\xfdBadName at 35\xfe\
dspfx 1\ninput raw q31 2 1907114028\ncmplx_mag_squared\ndecimate 4294967551 {-2 19 20 -16}\npower\noutput raw\n\xfdOutOfRange at 62, low 1, high 255\xfe\
dspfx 1\ninput raw q31 2 4294967295\ncorrelate {5 6 7}\npid -296531195 -2147483648 -1632216501\noutput raw\n\xfddspfx 1\ninput raw q31 2 4294967295\ncorrelate {5 6 7}\npid -296531195 -2147483648 -1632216501\noutput raw\n\xfe\
dspfx 1\ninput wave q15 1\nmin\nconv_partial 1 9 {0 1 2 3 4 5 6 7 8 9 10 11 12 13 14}\nclip 32768 -23345\noutput wave\n\xfdOutOfRange at 88, low -32768, high 32767\xfe\
dspfx 1\ninput wave q7 4\noffset 127\nmax\noutput wave\n\xfddspfx 1\ninput wave q7 4\noffset 127\nmax\noutput wave\n\xfe\
dspfx 1\ninput raw q31 1 44100\nclip -16 -16\nto q7\ncorrelate {}\noutput wave\n\xfdLength at 60, taps 0, factor 1\xfe\
dspfx 1\ninput raw q15 4 4294967295\nmat_scale 3 2 24201 -7\nmax\ndecimate 2 {2 3 4 5 6 7 8 9 10 11 12 13 14 15 16 17 18 19 -32769}\noutput raw\n\xfdOutOfRange at 120, low -32768, high 32767\xfe\
dspfx 1 input raw q15 1 8000 power power power power power power power power power power power power power power power power power power power power power power power power power power power power power power power power power power power power power power power power power power power power power power power power power power power power power power power power power power power power power power power power power power  output raw\xfdTooMany at 413, limit 64\xfe\
dspfx 1 input raw q15 1 8000 correlate {1} negate negate negate negate negate negate negate negate negate negate negate negate negate negate negate negate negate negate negate negate negate negate negate negate negate negate negate negate negate negate negate negate negate negate negate negate negate negate negate negate negate negate negate negate negate negate negate negate negate negate negate negate negate negate negate negate negate negate negate negate negate negate correlate {1 2} output raw\xfdTooMany at 477, limit 1\xfe\
dspfx 1 input raw q15 1 1 decimate 00000000000000000001 {1} output raw\xfddspfx 1\ninput raw q15 1 1\ndecimate 1 {1}\noutput raw\n\xfe\
dspfx 1 input raw q15 5 1 interpolate q7\xfdBadNumber at 38\xfe\
dspfx 2 input raw q15 2 8000 table xxxxxxxxxxxxxxxxxxxxxxxxxxxxxxxxx {1 2 3 4 5 6} lattice_iir b {1 2} output wave\xfdBadName at 35\xfe\
dspfx 1\ninput raw q15 2 4294967295\ndot\nshift -15\noutput raw\n\xfddspfx 1\ninput raw q15 2 4294967295\ndot\nshift -15\noutput raw\n\xfe\
dspfx 1\ninput raw q7 2 8000\nscale 0 7\nfir {-128 -128 -128 -128 -128 -128 -128 -128 -128 -128 -128 -128 -128 -128 -128 -128 -128 -128 -128 -128}\nshift 18446744073709551623\noutput raw\n\xfdOutOfRange at 150, low -7, high 7\xfe\
dspfx 1\ninput raw q7 2 1\nscale 127 0\noutput raw\n\xfddspfx 1\ninput raw q7 2 1\nscale 127 0\noutput raw\n\xfe\
dspfx 1\ninput wave q7 1\noffset 4294967423\noutput wave\n\xfdOutOfRange at 31, low -128, high 127\xfe\
dspfx 1\ninput wave q7 1\ncorrelate {127 127 65 1 65 127}\noutput wave\n\xfddspfx 1\ninput wave q7 1\ncorrelate {127 127 65 1 65 127}\noutput wave\n\xfe\
dspfx 1\ninput raw q31 2 4294967295\nclip 1073741823 1385019689\ncmplx_conj\nroute {1 1 1}\noutput raw\n\xfddspfx 1\ninput raw q31 2 4294967295\nclip 1073741823 1385019689\ncmplx_conj\nroute {1 1 1}\noutput raw\n\xfe\
dspfx 1 input raw q15 1 8000 power power power power power power power power power power power power power power power power power power power power power power power power power power power power power power power power power power power power power power power power power power power power power power power power power power power power power power power power power power power power power power power power  output raw\xfddspfx 1\ninput raw q15 1 8000\npower\npower\npower\npower\npower\npower\npower\npower\npower\npower\npower\npower\npower\npower\npower\npower\npower\npower\npower\npower\npower\npower\npower\npower\npower\npower\npower\npower\npower\npower\npower\npower\npower\npower\npower\npower\npower\npower\npower\npower\npower\npower\npower\npower\npower\npower\npower\npower\npower\npower\npower\npower\npower\npower\npower\npower\npower\npower\npower\npower\npower\npower\npower\npower\noutput raw\n\xfe\
dspfx 1 input raw q15 1 8000 correlate {1} negate negate negate negate negate negate negate negate negate negate negate negate negate negate negate negate negate negate negate negate negate negate negate negate negate negate negate negate negate negate negate negate negate negate negate negate negate negate negate negate negate negate negate negate negate negate negate negate negate negate negate negate negate negate negate negate negate negate negate negate negate negate correlate {1 2} output raw\xfdTooMany at 477, limit 1\xfe\
dspfx 1 input raw q15 1 1 fir {1 0-} output raw\xfdBadNumber at 33\xfe\
dspfx 1 input raw q15 2 1 to q31 shift q31\xfdBadNumber at 39\xfe\
dspfx 1 input raw q15 2 8000 block 4 table  {40000} sparse {1 2} {1} output wavex\xfdUnknownWord at 37\xfe\
dspfx 1\ninput raw q15 1 1\nlattice_fir {-3 253 509 765 1021}\nclip 16764 27128\ninterpolate 255 {17062 -6071 30015 -16033 -9946 -8604 -8642 -23320}\noutput wave\n\xfdLength at 143, taps 8, factor 255\xfe\
dspfx 1\ninput raw q7 3 1\nscale 13 -8\nmin\noffset 128\noutput wave\n\xfdOutOfRange at 48, low -128, high 127\xfe\
dspfx 1\ninput raw q15 16 1\nscale 13 -17\npower\noutput raw\n\xfdOutOfRange at 36, low -16, high 15\xfe\
dspfx 1\ninput raw q7 1 1\nshift 7\noutput wave\n\xfddspfx 1\ninput raw q7 1 1\nshift 7\noutput wave\n\xfe\
dspfx 1\ninput wave q15 4\nnegate\nlattice_iir {16 16385 14 30676} {}\noutput wave\n\xfdLength at 65, taps 0, factor 5\xfe\
dspfx 1\ninput raw q31 1 1315484813\ndecimate 3 {}\noutput wave\n\xfdLength at 47, taps 0, factor 1\xfe\
dspfx 1 input raw q15 1 8000 abs abs abs abs abs abs abs abs abs abs abs abs abs abs abs abs abs abs abs abs abs abs abs abs abs abs abs abs abs abs abs abs abs abs abs abs abs abs abs abs abs abs abs abs abs abs abs abs abs abs abs abs abs abs abs abs abs abs abs abs abs abs abs abs abs  output raw\xfdTooMany at 285, limit 64\xfe\
dspfx 1 input raw q15 1 8000 fir {16384} output raw\xfddspfx 1\ninput raw q15 1 8000\nfir {16384}\noutput raw\n\xfe\
dspfx 1 input raw q15 1 8000 fir {16384} output raw\xfddspfx 1\ninput raw q15 1 8000\nfir {16384}\noutput raw\n\xfe\
dspfx 1 input raw q15 1 8000 fir {16384} output raw\xfddspfx 1\ninput raw q15 1 8000\nfir {16384}\noutput raw\n\xfe\
dspfx 1 input raw q15 1 8000 fir {16384} output raw\xfddspfx 1\ninput raw q15 1 8000\nfir {16384}\noutput raw\n\xfe\
dspfx 1 input raw q15 1 8000 fir {16384} output raw\xfddspfx 1\ninput raw q15 1 8000\nfir {16384}\noutput raw\n\xfe";

/// Block lengths that are not legal: a script, the block length, and its unit.
pub static UNITS: &[u8] = b"\
dspfx\r\n\t1\r\n\tinput\r\n\traw\r\n\tq31\r\n\t1\r\n\t1\r\n\tblock\r\n\t1\r\n\tabs\r\n\tdecimate\r\n\t2\r\n\t{\r\n\t16383\r\n\t16383\r\n\t16383\r\n\t16383\r\n\t16383\r\n\t16383\r\n\t}\r\n\tmat_trans\r\n\t2\r\n\t2\r\n\toutput\r\n\traw\xfd1\xfd8\xfe\
dspfx 1 input raw q15 2 8000 decimate 255 {1} decimate 224 {1} mat_trans 8 14 decimate 30 {1} mat_trans 6 51 output raw\xfd65536\xfd0\xfe\
dspfx 1 input raw q15 1 8000 interpolate 3 {1 1 1} interpolate 3 {1 1 1} mat_mult 4 6 3 {1 1 1 1 1 1 1 1 1 1 1 1 1 1 1 1 1 1} mat_trans 3 29 output raw\xfd231\xfd232\xfe\
dspfx 1 input raw q15 1 1 interpolate 16 {1 1 1 1 1 1 1 1 1 1 1 1 1 1 1 1} interpolate 64 {1 1 1 1 1 1 1 1 1 1 1 1 1 1 1 1 1 1 1 1 1 1 1 1 1 1 1 1 1 1 1 1 1 1 1 1 1 1 1 1 1 1 1 1 1 1 1 1 1 1 1 1 1 1 1 1 1 1 1 1 1 1 1 1} decimate 7 {1}  output raw\xfd257\xfd7\xfe\
dspfx 1 input wave q15 1 decimate 7 {1} conv_partial 3 4294967295 {1} output wave\xfd70000\xfd7\xfe\
dspfx 1 input raw q15 1 8000 mat_trans 49 30 output raw\xfd65537\xfd1470\xfe\
dspfx 1 input raw q15 1 8000 mat_trans 49 30 output raw\xfd66150\xfd1470\xfe\
dspfx 1 input raw q15 1 8000 interpolate 17 {1 1 1 1 1 1 1 1 1 1 1 1 1 1 1 1 1} decimate 128 {1} mat_trans 6 32 mat_mult 4 2 4 {1 1 1 1 1 1 1 1} conv {1 2} interpolate 17 {1 1 1 1 1 1 1 1 1 1 1 1 1 1 1 1 1} output raw\xfd65537\xfd24576\xfe\
dspfx 1 input raw q15 1 8000 interpolate 255 {1 1 1 1 1 1 1 1 1 1 1 1 1 1 1 1 1 1 1 1 1 1 1 1 1 1 1 1 1 1 1 1 1 1 1 1 1 1 1 1 1 1 1 1 1 1 1 1 1 1 1 1 1 1 1 1 1 1 1 1 1 1 1 1 1 1 1 1 1 1 1 1 1 1 1 1 1 1 1 1 1 1 1 1 1 1 1 1 1 1 1 1 1 1 1 1 1 1 1 1 1 1 1 1 1 1 1 1 1 1 1 1 1 1 1 1 1 1 1 1 1 1 1 1 1 1 1 1 1 1 1 1 1 1 1 1 1 1 1 1 1 1 1 1 1 1 1 1 1 1 1 1 1 1 1 1 1 1 1 1 1 1 1 1 1 1 1 1 1 1 1 1 1 1 1 1 1 1 1 1 1 1 1 1 1 1 1 1 1 1 1 1 1 1 1 1 1 1 1 1 1 1 1 1 1 1 1 1 1 1 1 1 1 1 1 1 1 1 1 1 1 1 1 1 1 1 1 1 1 1 1 1 1 1 1 1 1 1 1 1 1 1 1 1 1 1 1 1 1 1 1 1 1 1 1} interpolate 255 {1 1 1 1 1 1 1 1 1 1 1 1 1 1 1 1 1 1 1 1 1 1 1 1 1 1 1 1 1 1 1 1 1 1 1 1 1 1 1 1 1 1 1 1 1 1 1 1 1 1 1 1 1 1 1 1 1 1 1 1 1 1 1 1 1 1 1 1 1 1 1 1 1 1 1 1 1 1 1 1 1 1 1 1 1 1 1 1 1 1 1 1 1 1 1 1 1 1 1 1 1 1 1 1 1 1 1 1 1 1 1 1 1 1 1 1 1 1 1 1 1 1 1 1 1 1 1 1 1 1 1 1 1 1 1 1 1 1 1 1 1 1 1 1 1 1 1 1 1 1 1 1 1 1 1 1 1 1 1 1 1 1 1 1 1 1 1 1 1 1 1 1 1 1 1 1 1 1 1 1 1 1 1 1 1 1 1 1 1 1 1 1 1 1 1 1 1 1 1 1 1 1 1 1 1 1 1 1 1 1 1 1 1 1 1 1 1 1 1 1 1 1 1 1 1 1 1 1 1 1 1 1 1 1 1 1 1 1 1 1 1 1 1 1 1 1 1 1 1 1 1 1 1 1 1} decimate 2 {1} correlate {1} max  output wave\xfd17\xfd2\xfe\
dspfx 1 input raw q15 1 8000 interpolate 3 {1 1 1} decimate 128 {1} decimate 255 {1} mat_mult 6 2 5 {1 1 1 1 1 1 1 1 1 1} conv_partial 0 1 {1} interpolate 17 {1 1 1 1 1 1 1 1 1 1 1 1 1 1 1 1 1} output raw\xfd130559\xfd0\xfe\
dspfx 1 input raw q15 1 8000 interpolate 3 {1 1 1} decimate 128 {1} decimate 255 {1} mat_mult 6 2 5 {1 1 1 1 1 1 1 1 1 1} conv_partial 0 1 {1} interpolate 17 {1 1 1 1 1 1 1 1 1 1 1 1 1 1 1 1 1} output raw\xfd130560\xfd0\xfe\
dspfx 1 input raw q15 16 8000 mat_mult 1 6 3 {1 1 1 1 1 1 1 1 1 1 1 1 1 1 1 1 1 1} conv_partial 0 1 {1} decimate 128 {1} interpolate 128 {1 1 1 1 1 1 1 1 1 1 1 1 1 1 1 1 1 1 1 1 1 1 1 1 1 1 1 1 1 1 1 1 1 1 1 1 1 1 1 1 1 1 1 1 1 1 1 1 1 1 1 1 1 1 1 1 1 1 1 1 1 1 1 1 1 1 1 1 1 1 1 1 1 1 1 1 1 1 1 1 1 1 1 1 1 1 1 1 1 1 1 1 1 1 1 1 1 1 1 1 1 1 1 1 1 1 1 1 1 1 1 1 1 1 1 1 1 1 1 1 1 1 1 1 1 1 1 1} decimate 128 {1} mat_trans 49 3 output raw\xfd0\xfd37632\xfe\
dspfx 1 input raw q15 16 8000 mat_mult 1 6 3 {1 1 1 1 1 1 1 1 1 1 1 1 1 1 1 1 1 1} conv_partial 0 1 {1} decimate 128 {1} interpolate 128 {1 1 1 1 1 1 1 1 1 1 1 1 1 1 1 1 1 1 1 1 1 1 1 1 1 1 1 1 1 1 1 1 1 1 1 1 1 1 1 1 1 1 1 1 1 1 1 1 1 1 1 1 1 1 1 1 1 1 1 1 1 1 1 1 1 1 1 1 1 1 1 1 1 1 1 1 1 1 1 1 1 1 1 1 1 1 1 1 1 1 1 1 1 1 1 1 1 1 1 1 1 1 1 1 1 1 1 1 1 1 1 1 1 1 1 1 1 1 1 1 1 1 1 1 1 1 1 1} decimate 128 {1} mat_trans 49 3 output raw\xfd37631\xfd37632\xfe\
dspfx 1 input raw q15 1 8000 mat_mult 5 2 2 {1 1 1 1} mat_mult 3 4 1 {1 1 1 1} conv {1 2} mat_mult 2 4 3 {1 1 1 1 1 1 1 1 1 1 1 1} interpolate 16 {1 1 1 1 1 1 1 1 1 1 1 1 1 1 1 1} mat_trans 19 7 conv_partial 0 1 {1} output raw\xfd63839\xfd63840\xfe\
dspfx 1 input raw q15 1 1 interpolate 255 {1 1 1 1 1 1 1 1 1 1 1 1 1 1 1 1 1 1 1 1 1 1 1 1 1 1 1 1 1 1 1 1 1 1 1 1 1 1 1 1 1 1 1 1 1 1 1 1 1 1 1 1 1 1 1 1 1 1 1 1 1 1 1 1 1 1 1 1 1 1 1 1 1 1 1 1 1 1 1 1 1 1 1 1 1 1 1 1 1 1 1 1 1 1 1 1 1 1 1 1 1 1 1 1 1 1 1 1 1 1 1 1 1 1 1 1 1 1 1 1 1 1 1 1 1 1 1 1 1 1 1 1 1 1 1 1 1 1 1 1 1 1 1 1 1 1 1 1 1 1 1 1 1 1 1 1 1 1 1 1 1 1 1 1 1 1 1 1 1 1 1 1 1 1 1 1 1 1 1 1 1 1 1 1 1 1 1 1 1 1 1 1 1 1 1 1 1 1 1 1 1 1 1 1 1 1 1 1 1 1 1 1 1 1 1 1 1 1 1 1 1 1 1 1 1 1 1 1 1 1 1 1 1 1 1 1 1 1 1 1 1 1 1 1 1 1 1 1 1 1 1 1 1 1 1} interpolate 17 {1 1 1 1 1 1 1 1 1 1 1 1 1 1 1 1 1} decimate 255 {1} decimate 3 {1}  output raw\xfd256\xfd3\xfe\
dspfx 1 input raw q15 1 8000 interpolate 2 {1 1} mat_mult 6 5 3 {1 1 1 1 1 1 1 1 1 1 1 1 1 1 1} mat_trans 36 6 route {0 0} mat_trans 28 32 interpolate 2 {1 1} output raw\xfd80640\xfd20160\xfe\
dspfx 1 input raw q15 2 1 interpolate 255 {1 1 1 1 1 1 1 1 1 1 1 1 1 1 1 1 1 1 1 1 1 1 1 1 1 1 1 1 1 1 1 1 1 1 1 1 1 1 1 1 1 1 1 1 1 1 1 1 1 1 1 1 1 1 1 1 1 1 1 1 1 1 1 1 1 1 1 1 1 1 1 1 1 1 1 1 1 1 1 1 1 1 1 1 1 1 1 1 1 1 1 1 1 1 1 1 1 1 1 1 1 1 1 1 1 1 1 1 1 1 1 1 1 1 1 1 1 1 1 1 1 1 1 1 1 1 1 1 1 1 1 1 1 1 1 1 1 1 1 1 1 1 1 1 1 1 1 1 1 1 1 1 1 1 1 1 1 1 1 1 1 1 1 1 1 1 1 1 1 1 1 1 1 1 1 1 1 1 1 1 1 1 1 1 1 1 1 1 1 1 1 1 1 1 1 1 1 1 1 1 1 1 1 1 1 1 1 1 1 1 1 1 1 1 1 1 1 1 1 1 1 1 1 1 1 1 1 1 1 1 1 1 1 1 1 1 1 1 1 1 1 1 1 1 1 1 1 1 1 1 1 1 1 1 1} interpolate 64 {1 1 1 1 1 1 1 1 1 1 1 1 1 1 1 1 1 1 1 1 1 1 1 1 1 1 1 1 1 1 1 1 1 1 1 1 1 1 1 1 1 1 1 1 1 1 1 1 1 1 1 1 1 1 1 1 1 1 1 1 1 1 1 1} decimate 7 {1}  output raw\xfd257\xfd7\xfe";

/// Whole runs: a script, the frames taken and given, and the products.
pub static RUNS: &[u8] = b"\
dspfx 1\ninput wave q31 2\nbiquad64 30 {1073741825 1 -1348265561 -1196454820 -7}\ndot\ndot\nconv_partial 1 1 {15 -20 2 3 -2}\nsub\nbiquad 10 {-3 0 3 6 9}\ninterpolate 2 {-4 996 1996 2996}\nmin\nto q15\nroute {0 0 0 0 0 0 0 0 0 0 0 0 0 0 0 0}\noutput wave\n\xfd3\xfd2\xfd55\xfe\
dspfx# note {1 \xff\n1 input raw q15 1 3174047292 to q31 clip 1577531995  1577531995 clip -2\r\n1936406733 mat_trans 2 002 to\tq7 abs power scale 127 2 offset 65 offset -8 output raw\n\n\xfd1\xfd0\xfd0\xfe\
dspfx 1\ninput raw q31 2 2610371435\npower\nmat_trans 2 1\nlms 9 1 {1080239656 154660157 1121413813}\nmat_trans 4 3\nadd\nmax\nbiquad64 11 {-403316678 -1073741824 -894145142 18 -6}\nfir {-20 -4 -14 -17}\noutput raw\n\xfd65\xfd60\xfd1118\xfe\
dspfx 1\ninput raw q31 4 4199824491\nblock 1\ncmplx_dot\ninterpolate 7 {8 2147483646 2147483646 19 -20 1073741825 -1909397889}\nnegate\nscale 513628214 30\noffset -6\nroute {1 1 1 1}\noutput wave\n\xfd2\xfd14\xfd120\xfe\
dspfx 1\ninput wave q7 3\nblock 2\nfir {5 7 9}\nshift 5\ncorrelate {25}\nmin\nroute {0}\noutput raw\n\xfd3\xfd5\xfd36\xfe\
dspfx 1\ninput raw q31 2 44100\nlms 5 0 {2147483647 2147483647 2147483647 2147483647 2147483647}\npower\nsub\noffset -14\nto q15\nlattice_fir {16384 25881 9711 -32767 13174}\nmat_add 2 4 {32766 32766 32766 32766 32766 32766 32766 32766}\nmat_add 2 3 {32767 32767 32767 32767 32767 32767}\ndecimate 2 {32767}\noutput raw\n\xfd9\xfd3\xfd210\xfe\
dspfx 1 input wave q7 2 conv{ 5#\n6# a\rnegate {\n7} add output wave\xfd1\xfd3\xfd18\xfe\
dspfx 1\ninput wave q31 2\nblock 14\ncmplx_mag_squared\nlattice_iir {-4 2039654908 -2147483648 -1492387910} {1313279219 -3 1860784841 7 -2147483647}\noffset -434014016\nbiquad64 30 {1353987267 224395672 0 -1 16}\ncorrelate {102612134 1826592649 982702309 96304647 -458151988 -814198237 -91531010 1046278587 -764415745}\nabs\nroute {0 0 0}\nmat_trans 7 2\nroute {2 2 1 0}\noutput wave\n\xfd40\xfd70\xfd1160\xfe\
dspfx 1 input\traw q15 1# a\rnegate {\n8000 negate fir{ 002840 -1 -14382 -29150} abs output wave\xfd16\xfd16\xfd64\xfe\
dspfx 1\ninput wave q15 2\nmult\nmat_sub 2 4 {7035 -16531 -27390 2052 -15310 -1438 5086 25875}\nmax\noutput raw\n\xfd2\xfd0\xfd2\xfe\
dspfx 1\ninput wave q7 1\nconv_partial 1 1 {-128 58 63 -128 15 10 20 126 127 -98}\nmax\nto q15\nmat_sub 3 2 {17 -9780 -3932 32767 -20042 -4}\nabs\noutput wave\n\xfd2\xfd0\xfd10\xfe\
dspfx 1\ninput wave q15 1\nlattice_iir {-16384 -32768 -1} {32767 32767 0 -32768}\nconv {-32768}\nroute {0 0}\nsparse {32766 1 -32767 0} {6 35 50 54}\noutput wave\n\xfd2\xfd2\xfd38\xfe\
dspfx 1\ninput raw q31 1 4294967295\nmat_sub 3 1 {-2147483647 -2147483647 -2147483647}\nbiquad 30 {0 0 -2147483648 2147483647 2147483646}\noffset -2147483647\ndecimate 1 {1 1 1 1 1}\nmat_trans 4 3\noutput wave\n\xfd30\xfd24\xfd300\xfe\
dspfx 1\ninput wave q31 2\nsub\nclip 329187661 2137001127\noutput raw\n\xfd2\xfd2\xfd0\xfe\
dspfx 1\ninput raw q15 4 3557699937\nblock 3\ncorrelate {-1 16383}\ncmplx_mult\noutput wave\n\xfd10\xfd19\xfd156\xfe\
dspfx 1\ninput raw q31 2 2160974244\npower\nmat_scale 4 2 1 0\nmult\nscale -1076816590 30\noutput raw\n\xfd17\xfd16\xfd98\xfe\
dspfx 1\ninput raw q15 2 44100\nblock 42\nadd\nscale -4 -8\nabs\nmat_add 3 2 {12 13018 19905 -13 -14 -10}\noutput raw\n\xfd5\xfd0\xfd5\xfe\
dspfx 1 input raw q15 1 8000 interpolate 3 {1 1 1} interpolate 3 {1 1 1} mat_mult 4 6 3 {1 1 1 1 1 1 1 1 1 1 1 1 1 1 1 1 1 1} mat_trans 3 29 output raw\xfd2\xfd0\xfd24\xfe\
dspfx 1\ninput raw q15 1 513349942\nblock 6\nlattice_fir {32767 25698 1 9 16383 10 18 10 -15 1 18 10}\nshift 15\npid -32768 4315 -1\ndecimate 2 {32767 32767 32767 32767 32767 32767}\noutput wave\n\xfd3\xfd1\xfd87\xfe\
dspfx 1\ninput raw q31 2 44100\nabs\nsparse {1722193259 365550317 -1330954811 -574070319 517125511} {0 1 0 0 0}\nconv {2147483647 2147483647 2147483647 2147483647 2147483647 2147483647}\noutput wave\n\xfd3\xfd8\xfd126\xfe\
dspfx 1\ninput raw q15 3 44100\ncmplx_mult_real\nbiquad 13 {-3 11 -18 14 -1 7 -1 7 20 -14 -20 -8}\ninterpolate 2 {17319 30308 -5320 -5266 9329 -16141 -17852 -14542}\ndot\nclip 16383 16383\noutput wave\n\xfd18\xfd36\xfd720\xfe\
dspfx 1\ninput raw q31 2 44100\ndot\noutput raw\n\xfd31\xfd31\xfd31\xfe\
dspfx 1 input raw q15 4 1 cmplx_dot output raw\xfd150\xfd150\xfd600\xfe\
dspfx 1\r\ninput wave q31\t2 cmplx_conj output raw\xfd20\xfd20\xfd0\xfe\
dspfx 1\ninput wave q7 2\ndot\nshift -3\noutput wave\n\xfd10\xfd10\xfd10\xfe\
\tdspfx 01#\ninput wave  q31 #x\r\n4 cmplx_mult output wave\xfd3\xfd3\xfd12\xfe\
dspfx 1\ninput raw q15 2 44100\ncmplx_mag_squared\noutput raw\n\xfd14\xfd14\xfd28\xfe\
dspfx 1\ninput wave q15 2\ncmplx_conj\ncmplx_conj\noutput wave\n\xfd3\xfd3\xfd0\xfe\
dspfx 1 input raw q7 1 1 sparse {-128 -128} {0 1} output raw\xfd2\xfd2\xfd4\xfe\
dspfx 1 input wave q31 04#\nblock #x\r\n6 min# note {1 \xff\noutput raw \xfd6\xfd6\xfd0\xfe\
dspfx 1\ninput wave q7 1\nto q15\nlattice_fir {16385 -18 -11239 -32768 16077}\noutput wave\n\xfd23\xfd23\xfd230\xfe\
dspfx 1\ninput wave q31 1\nconv_partial 1 1 {1458221296 -920667197 2 11 -16}\nmax\noutput wave\n\xfd11\xfd1\xfd5\xfe\
\tdspfx\r\n1# note {1 \xff\ninput\traw#\nq15 02 44100 mat_scale 3 00000000000000000001 32766 -16 output raw#\xfd5\xfd3\xfd6\xfe\
dspfx 1\ninput raw q15 1 4294967295\nmat_sub 3 3 {-1 -10583 -11534 -14 -11 0 0 22117 32767}\ndecimate 3 {-4 996 1996 2996 3996 4996}\nshift -11\nclip -1 32767\nto q7\noutput wave\n\xfd1\xfd0\xfd0\xfe\
dspfx 1\ninput raw q15 3 44100\nlattice_iir {-32768 1 -32767} {0 -32768 32767 1}\nto q7\nconv {0 0 0 0 0 0 0 0 0 0 0 0 0 0 0 0 0 0 0 0 0 0 0 0 0 0 0 0 0 0 0 0 0 0 0 0 0 0 0 0 0 0 0 0 0 0 0 0 0}\noutput raw\n\xfd2\xfd50\xfd7410\xfe\
dspfx 1\ninput raw q31 3 8000\npid -193398865 1073741825 -2147483648\nscale 774959695 -31\nsparse {-3 15 -1 -11 19 -7 13 -14 -10 11 -5 5 9 10 -3 17 -6 4} {22162 48193 37740 28674 59468 11817 37744 54704 9705 48909 37452 11841 61782 19061 52818 26616 54244 34740}\noutput wave\n\xfd52\xfd52\xfd3432\xfe\
dspfx 1\ninput raw q15 1 4294967295\nblock 2\nlattice_fir {-32768 -32768 -32768 -32768 -32768 -32768 -32768 -32768 -32768 -32768 -32768 -32768}\nto q7\nroute {0 0}\ncorrelate {0 0 0 0 0 0}\noutput wave\n\xfd0\xfd0\xfd0\xfe\
dspfx 1\ninput raw q15 1 4294967295\nblock 2\nlattice_fir {-32768 -32768 -32768 -32768 -32768 -32768 -32768 -32768 -32768 -32768 -32768 -32768}\nto q7\nroute {0 0}\ncorrelate {0 0 0 0 0 0}\noutput wave\n\xfd0\xfd0\xfd0\xfe";
