//! A table that grows, as in `cases/scripts/columns/grown.stories`; and five scripts that were drawn as `checks/drawn` draws them, with
//! rows of more identifiers, over other tables each. Replicas go by frames and by images, tables grow, batches group and join.

/// The scripts.
pub static SCRIPTS: [&str; 6] = [
    "workers 1\nreplicas 1\ntable acct int int\nbegin\ninsert 0 acct 7 5 -1\ncommit 0 0\nflush 1\nbegin\nbegin\n\
        column 2 acct 9\nget 2 acct 7 2\ninsert 2 acct 8 6 -2\ninsert 2 acct 8 6 -2 3\ncommit 2 0\nget 1 acct 7 2\n\
        set 1 acct 7 2 1\nget 1 acct 7 0\nset 1 acct 7 1 4\npush 0 0\ndeliver 0 r0\nopen 0 query acct get sum 2\n\
        open 0 query acct get count sum 0\nask 0\ndeliver 1 p\ndeliver 2 r0\nrun 0\ndump 0\ncommit 1 0\nflush 1\n\
        open 0 query acct get sum 2\nopen 0 query acct get count sum 0\nask 0\ndeliver 3 p\ndeliver 4 r0\nrun 0\ndeliver 5 p\n\
        deliver 6 r0\nrun 0\nopen 0 query acct get sum 2\ndump 0\nbegin\nbegin\nset 3 acct 7 2 1\ncommit 3 0\ncolumn 4 acct xab\n\
        commit 4 0\nstop 0\ncolumn 4 acct xab\nstart\ncolumn 4 acct xab\nbegin\nget 5 acct 7 2\ncolumn 5 acct xab\n\
        get 5 acct 8 3\ncommit 5 0\nstop 19\nstart\nbegin\nget 6 acct 7 3\nask 0\ndeliver 7 p\ndeliver 8 r0\nrun 0\ndeliver 9 p\n\
        deliver 10 r0\nrun 0\ndump 0\ninsert 6 acct 9 6 -2 3\n",
    "workers 3\nreplicas 1\ntable acct int int\ntable item int bytes2 bytes1\ntable wide bytes64 int bytes64\nbegin\n\
        deliver 0 r0\nbase\ninsert 0 item 4 -100 xff7f x00\nopen 0 query item by 1 get count\ndeliver 1 r0\ndeliver 0 r0\n\
        version 0\nask 0\nopen 0 query item by 1 get count\ninsert 0 item 5 2 xff00 x7f\ninsert 0 acct 14 0 -9223372036854775808\n\
        column 0 wide x7f80\ncommit 0 0\nrestart 0 7\nflush 2\nopen 0 query acct join 0 item by 0 j2 get max 1\n\
        open 0 query item by 1 2 get min 1 min 1\nask 0\nbegin\npush 2 0\ndeliver 1 p\nflush 3\ndeliver 2 r0\nbase\nrun 0\nrun 0\n\
        insert 1 wide 15 x00000000000000000000000000000000000000000000000000000000000000000000000000000000000000000000000000000000\
        000000000000000000000000 3 x8080808080808080808080808080808080808080808080808080808080808080808080808080808080808080808080\
        8080808080808080808080808080808080 x004e\npush 1 0\ndeliver 4 p\n\
        insert 1 wide 8 x808080808080808080808080808080808080808080808080808080808080808080808080808080808080808080808080808080808\
        0808080808080808080804e -100 x80808080808080808080808080808080808080808080808080808080808080808080808080808080808080808080\
        808080808080808080808080808080808080 x4e4e\nrenew 0\ninsert 1 item 7 3 xff00 x4e\ndeliver 5 p\ndeliver 6 r0\nbegin\n\
        commit 2 1\nset 2 item 19 1 x4e4e\ncommit 1 1\nbegin\nrun 0\npush 1 0\nset 3 wide 4 3 xff00\n\
        insert 3 wide 15 xffffffffffffffffffffffffffffffffffffffffffffffffffffffffffffffffffffffffffffffffffffffffffffffffffffffff\
        ffffffffffffffffffffffff 0 x4e4e4e4e4e4e4e4e4e4e4e4e4e4e4e4e4e4e4e4e4e4e4e4e4e4e4e4e4e4e4e4e4e4e4e4e4e4e4e4e4e4e4e4e4e4e4e\
        4e4e4e4e4e4e4e4e4e4e4e4e4e4e4e4e4e x7fff\ninsert 3 acct 12 100 -1\n\
        insert 3 wide 2 x808080808080808080808080808080808080808080808080808080808080808080808080808080808080808080808080808080808\
        08080808080808080808000 5 x00000000000000000000000000000000000000000000000000000000000000000000000000000000000000000000000\
        00000000000000000000000000000004e x7f80\ncommit 3 1\nbegin\nraw r0 4244030300600000000000000000070000000000000002000000000\
        00000010000000000000001000000ff0000000103000000000000000100000000000000010000000000000000000000000000000000000000000000000\
        000000000000000\ncolumn 4 item -100\npush 2 0\ndeliver 7 p\nabort 4\nrestart 0 4\n\
        open 0 query acct where 0 >= -1 by 0 1 get min 0 sum 0\nbegin\nopen 0 query item by 1 get count\nrestart 0 0\n\
        open 0 query wide join 1 item by 1 get max 3\nopen 0 query item join 0 acct where 255 < 3 and 3 != -1 by 0 get max j0 coun\
        t\nopen 0 query item join 0 acct where 2 = x7f and j1 >= -1 by 2 get max j0\nbase\n\
        insert 5 item 2 9223372036854775807 xffff x00\ninsert 5 wide 1 x8080808080808080808080808080808080808080808080808080808080\
        8080808080808080808080808080808080808080808080808080808080808080808000 x8080 x7f7f7f7f7f7f7f7f7f7f7f7f7f7f7f7f7f7f7f7f7f7f\
        7f7f7f7f7f7f7f7f7f7f7f7f7f7f7f7f7f7f7f7f7f7f7f7f7f7f7f7f7f7f7f7f7f7f7f7f7f7f7f7f7f4e x4e4e\n\
        insert 5 item 11 -9223372036854775808 x7f80 x80\nask 0\ndeliver 3 r0\ninsert 5 acct 4 -1 -1\ncommit 5 0\nshow 8\n\
        commit 2 1\nraw r0 424403020017000000000000000000000000000000000198\nflush 3\ndeliver 9 p\n\
        raw r0 4244030200170000000000000000070000000000000001c4\ndump 0\n\
        set 3 wide 8 0 x4e4e4e4e4e4e4e4e4e4e4e4e4e4e4e4e4e4e4e4e4e4e4e4e4e4e4e4e4e4e4e4e4e4e4e4e4e4e4e4e4e4e4e4e4e4e4e4e4e4e4e4e4e\
        4e4e4e4e4e4e4e4e4e4e7f\nopen 0 query item by 1 2 get min 1 min 1\nflush 2\ndeliver 10 r0\ndelete 2 wide 2\nbegin\n\
        commit 6 1\nget 3 acct 19 1\ndeliver 8 r0\ndeliver 8 p\nbegin\ndump 0\nset 7 wide 15 1 -100\npush 1 0\nrun 0\npush 1 0\n\
        deliver 6 p\nrun 0\ndeliver 14 p\ndeliver 15 r0\ninsert 7 acct 6 1 3\ndeliver 11 r0\nrun 0\ncommit 7 0\n\
        column 7 wide xfffffffffffffffffffffffffffffffffffffffffffffffffffffffffffffffffffffffffffffffffffffffffffffffffffffffffff\
        fffffffffffffffffffff\nbegin\ninsert 8 wide 6 xfffffffffffffffffffffffffffffffffffffffffffffffffffffffffffffffffffffffffff\
        fffffffffffffffffffffffffffffffffffffffffffffffffff4e 1 xfffffffffffffffffffffffffffffffffffffffffffffffffffffffffffffffff\
        fffffffffffffffffffffffffffffffffffffffffffffffffffffffffffff80 x7f4e\nflush 2\nask 0\ninsert 8 item 9 -100 x7f7f x00\n\
        insert 8 item 18 100 x4e00 x7f\ninsert 8 wide 13 x4e4e4e4e4e4e4e4e4e4e4e4e4e4e4e4e4e4e4e4e4e4e4e4e4e4e4e4e4e4e4e4e4e4e4e4e\
        4e4e4e4e4e4e4e4e4e4e4e4e4e4e4e4e4e4e4e4e4e4e4e4e4e4e4e80 0 x4e4e4e4e4e4e4e4e4e4e4e4e4e4e4e4e4e4e4e4e4e4e4e4e4e4e4e4e4e4e4e\
        4e4e4e4e4e4e4e4e4e4e4e4e4e4e4e4e4e4e4e4e4e4e4e4e4e4e4e4e4e4e4e4e00 x7f4e\ncommit 8 1\ndump 0\nbegin\ndeliver 16 p\n\
        push 0 2\nflush 1\nask 0\ninsert 9 acct 8 -2 2\ndeliver 19 p\nset 9 acct 8 0 4\ndeliver 20 r0\n\
        insert 9 item 16 9223372036854775807 xff4e x80\ninsert 6 acct 7 -1 4\nabort 0\ndump 0\npush 2 0\ndeliver 18 r0\nrun 0\n\
        dump 0\ncolumn 9 item 4\ncommit 9 0\ndeliver 21 p\nbegin\ndelete 10 item 2\npush 1 1\ndeliver 22 r0\nrun 0\nshow 22\n\
        insert 10 acct 1 0 -1\nset 10 acct 8 0 -1\ncolumn 12 wide x4e4e4e4e4e4e4e4e4e4e4e4e4e4e4e4e4e4e4e4e4e4e4e4e4e4e4e4e4e4e4e4\
        e4e4e4e4e4e4e4e4e4e4e4e4e4e4e4e4e4e4e4e4e4e4e4e4e4e4e4e4e4e4e4eff\nopen 0 query item by 1 2 get min 1 min 1\n\
        insert 10 wide 10 x7f7f7f7f7f7f7f7f7f7f7f7f7f7f7f7f7f7f7f7f7f7f7f7f7f7f7f7f7f7f7f7f7f7f7f7f7f7f7f7f7f7f7f7f7f7f7f7f7f7f7f7\
        f7f7f7f7f7f7f7f7f7f7f7f7f -9223372036854775808 x00000000000000000000000000000000000000000000000000000000000000000000000000\
        000000000000000000000000000000000000000000000000000000 x0080\n\
        set 10 wide 8 0 xfffffffffffffffffffffffffffffffffffffffffffffffffffffffffffffffffffffffffffffffffffffffffffffffffffffffff\
        fffffffffffffffffffff80\nraw r0 -\ninsert 10 wide 4 xfffffffffffffffffffffffffffffffffffffffffffffffffffffffffffffffffffff\
        fffffffffffffffffffffffffffffffffffffffffffffffffffffffff4e 1 x80808080808080808080808080808080808080808080808080808080808\
        08080808080808080808080808080808080808080808080808080808080808080804e xff80\nbegin\nask 0\ndeliver 24 p\n\
        open 0 query item by 1 2 get min 1 min 1\ndeliver 20 r0\ninsert 11 acct 1 -9223372036854775808 2\ndeliver 25 r0\nshow 25\n\
        set 11 wide 12 3 x4e7f\nrun 0\ninsert 11 acct 10 2 4\nask 0\n\
        insert 11 wide 14 x7f7f7f7f7f7f7f7f7f7f7f7f7f7f7f7f7f7f7f7f7f7f7f7f7f7f7f7f7f7f7f7f7f7f7f7f7f7f7f7f7f7f7f7f7f7f7f7f7f7f7f7\
        f7f7f7f7f7f7f7f7f7f7f7fff 0 x000000000000000000000000000000000000000000000000000000000000000000000000000000000000000000000\
        000000000000000000000000000000000ff x807f\ndeliver 22 r0\nshow 26\ndeliver 26 p\ncommit 11 0\n\
        insert 10 wide 0 xffffffffffffffffffffffffffffffffffffffffffffffffffffffffffffffffffffffffffffffffffffffffffffffffffffffff\
        ffffffffffffffffffffff4e -9223372036854775808 x000000000000000000000000000000000000000000000000000000000000000000000000000\
        0000000000000000000000000000000000000000000000000007f x4eff\nbegin\n\
        insert 12 wide 9 x4e4e4e4e4e4e4e4e4e4e4e4e4e4e4e4e4e4e4e4e4e4e4e4e4e4e4e4e4e4e4e4e4e4e4e4e4e4e4e4e4e4e4e4e4e4e4e4e4e4e4e4e\
        4e4e4e4e4e4e4e4e4e4e4e7f 1 x0000000000000000000000000000000000000000000000000000000000000000000000000000000000000000000000\
        00000000000000000000000000000000ff x0000\ninsert 12 item 15 4 x80ff x4e\ndeliver 27 r0\nrun 0\ninsert 12 acct 15 5 100\n\
        open 0 query item by 1 get count\nopen 0 query item get max 2 count\npush 2 0\nget 12 acct 4 1\n\
        insert 12 wide 0 xffffffffffffffffffffffffffffffffffffffffffffffffffffffffffffffffffffffffffffffffffffffffffffffffffffffff\
        ffffffffffffffffffffffff -100 x4e4e4e4e4e4e4e4e4e4e4e4e4e4e4e4e4e4e4e4e4e4e4e4e4e4e4e4e4e4e4e4e4e4e4e4e4e4e4e4e4e4e4e4e4e4\
        e4e4e4e4e4e4e4e4e4e4e4e4e4e4e4e4e4e4e xff00\nask 0\ndeliver 28 p\ndeliver 29 r0\nbegin\ninsert 13 item 6 4 xff00 xff\n\
        flush 2\nrun 0\ninsert 13 wide 9 x7f7f7f7f7f7f7f7f7f7f7f7f7f7f7f7f7f7f7f7f7f7f7f7f7f7f7f7f7f7f7f7f7f7f7f7f7f7f7f7f7f7f7f7f\
        7f7f7f7f7f7f7f7f7f7f7f7f7f7f7f7f7f7f7f7f 9223372036854775807 x808080808080808080808080808080808080808080808080808080808080\
        80808080808080808080808080808080808080808080808080808080808080808000 x8080\npush 0 3\ncommit 13 0\n\
        open 0 query acct join 0 item by 0 j2 get max 1\nask 0\ndeliver 31 p\ndump 0\nflush 2\npush 2 0\ndelete 12 acct 4\n\
        deliver 32 r0\ndeliver 30 r0\nrun 0\ndump 0\nopen 0 query item join 0 acct where 2 = x7f and j1 >= -1 by 2 get max j0\n\
        insert 12 acct 18 5 2\npush 2 0\nget 12 item 10 0\nopen 0 query item join 0 acct where 255 < 3 and 3 != -1 by 0 get max j\
        0 count\nversion 0\n",
    "workers 2\nreplicas 1\ntable acct int int\ntable site bytes2\nrenew 0\nbase\nbegin\nstop 1\nstart\n\
        open 0 query site where 0 != x80ff and 1 != 2 get count\ndump 0\n\
        open 0 query site where 0 >= x4e00 and 1 >= 0 by 0 0 get count\nopen 0 query site get max 0\nbegin\n\
        insert 1 site 17 x0080\ninsert 1 acct 11 1 3\ndeliver 0 p\ndeliver 0 r0\n\
        open 0 query acct where 0 = 1 by 1 1 get min 1 min 0\ninsert 1 site 4 x8000\ninsert 1 acct 15 0 4\nask 0\ncommit 1 0\n\
        begin\ndeliver 0 p\ndeliver 1 r0\nrun 0\nbegin\ninsert 3 acct 19 100 -1\n\
        open 0 query site where 0 != x80ff and 1 != 2 get count\nopen 0 query acct where 0 = 1 by 1 1 get min 1 min 0\n\
        insert 3 acct 16 3 100\ninsert 3 site 18 x007f\nask 0\nrun 0\nflush 2\n\
        raw r0 0144030200170000000000000000010000000000000001\nopen 0 query site where 0 != x80ff and 1 != 2 get count\nshow 1\n\
        insert 3 acct 17 1 -9223372036854775808\ndeliver 2 p\ndeliver 3 r0\ndeliver 0 r0\ndeliver 0 p\nrun 0\n\
        insert 3 site 12 x7f4e\nraw p 42440303005000000000000000000100000000000000010000000000000000000000000000000000000000000000\
        0002000000000000000000000000000000000000000000000000000000000000000040\ndeliver 5 p\npush 1 0\ndeliver 6 r0\nshow 3\n\
        flush 3\npush 0 1\nrun 0\nopen 0 query acct join 0 site where j0 <= x8080 by j0 get min j0 min j0\n\
        insert 3 site 13 xff00\ninsert 3 acct 4 5 5\nask 0\ninsert 3 site 18446744073709551615 x807f\nbegin\n\
        insert 4 acct 18 5 1\ndeliver 7 p\ncolumn 4 site 5\ninsert 4 acct 6 1 0\ncommit 3 1\n\
        raw r0 4244030300500000000000000000010000000000000003000000000000000100000000000000000000000000000000020000000000000000000\
        000000000000100000000000000000000000000000000\nget 4 acct 19 1\ndeliver 1 r0\nrun 0\nask 0\nget 4 acct 18 0\ncommit 4 1\n\
        base\nopen 0 query site where 0 <= xff7f and 0 > x007f get max 0\nask 0\ninsert 2 site 10 x7f00\nset 2 site 10 0 x007f\n\
        deliver 9 p\ninsert 2 acct 14 3 9223372036854775807\ndeliver 10 r0\nrun 0\n\
        open 0 query site where 0 != x80ff and 1 != 2 get count\nversion 0\ninsert 2 site 1 x007f\nversion 0\ndeliver 8 r0\n\
        deliver 4 r0\ndump 0\ninsert 2 site 16 x4e7f\ninsert 2 acct 12 -1 9223372036854775807\ninsert 2 acct 0 5 -100\n\
        get 2 acct 14 0\ninsert 2 acct 15 3 -1\nopen 0 query site where 1 > 100 by 0 0 0 0 0 0 0 0 0 get max 0\nflush 2\n\
        open 0 query site where 0 >= x4e00 and 1 >= 0 by 0 0 get count\ndump 0\npush 1 0\nset 2 acct 14 0 9223372036854775807\n\
        set 2 site 13 0 x0080\nopen 0 query site where 0 <= xff7f and 0 > x007f get max 0\nbase\nset 2 acct 15 0 5\nabort 2\n\
        begin\nask 0\nset 4 site 10 0 x4e00\ninsert 5 site 3 x4e4e\ninsert 5 site 1 xff7f\ncommit 5 1\nget 4 site 3 0\n\
        deliver 12 p\nbegin\ndeliver 13 r0\nrun 0\ndeliver 14 p\ndump 0\ncommit 6 0\ndeliver 15 r0\nrun 0\nshow 15\n\
        open 0 query acct join 0 acct by j255 get count\ndeliver 11 r0\nopen 0 query acct join 0 acct by j255 get count\n\
        get 3 site 13 0\nopen 0 query acct join 0 site get min 1\nbegin\nopen 0 query acct where 0 = 1 by 1 1 get min 1 min 0\n\
        ask 0\ndump 0\ndeliver 15 p\ndeliver 16 p\ncolumn 8589934592 acct x4e4e4e4e4e4e4e4e4e4e4e4e4e4e4e4e4e4e4e4e4e4e4e4e4e4e4e4\
        e4e4e4e4e4e4e4e4e4e4e4e4e4e4e4e4e4e4e4e4e4e4e4e4e4e4e4e4e4e4e4e4e4e4e4e7f\ninsert 7 site 10 x0080\ncommit 4 0\n\
        deliver 17 r0\nrun 0\nopen 0 query site where 0 != x80ff and 1 != 2 get count\ncommit 7 0\n\
        open 0 query site where 1 > 100 by 0 0 0 0 0 0 0 0 0 get max 0\nbegin\ninsert 8 site 10 x7fff\npush 1 1\n\
        insert 8 site 8 x804e\ncommit 8 0\nrun 0\nbegin\ninsert 9 acct 8 5 4\nabort 9\nbegin\nopen 0 query site get count count\n\
        raw r0 42440306001700000000000000000200000000000000003e\nset 10 site 18 0 x004e\ninsert 10 site 10 x7f80\ncommit 10 0\n\
        push 1 1\npush 1 1\ndeliver 16 r0\npush 0 1\ndump 0\nbegin\nget 11 site 4 0\nopen 0 query site by 0 get max 0\n\
        delete 11 acct 6\ndeliver 12 p\nraw p 4244030600170000000000000000020000000000010000\nflush 0\ninsert 11 acct 12 0 -1\n\
        raw r0 4244030300500000000000000000010000000000000005000000000000000200000000000000020000000000000001020000000000000001000\
        0000000000001000000000000000100000000000000011c\ninsert 11 acct 14 2 3\ndelete 11 acct 14\nstop 18446744073709551615\n\
        ask 0\nbegin\nstart\ndeliver 17 r0\ninsert 11 acct 10 -2 100\ndeliver 19 p\ncommit 10 0\nbegin\nflush 3\ndeliver 20 r0\n\
        get 12 site 12 0\nrun 0\ndeliver 10 r0\ninsert 12 acct 2 4 -100\ncommit 12 0\nbegin\ndeliver 21 p\nshow 20\n\
        deliver 22 r0\ninsert 11 acct 1 -100 -100\ndeliver 15 r0\nrun 0\nbegin\ndelete 14 site 3\nshow 21\n\
        set 14 site 13 0 x00ff\ndeliver 23 p\ndeliver 24 r0\ndeliver 12 r0\ncolumn 14 site x4e\nversion 0\ncommit 14 0\n",
    "workers 1\nreplicas 1\ntable full bytes64 bytes64 bytes64 bytes64 bytes64 bytes64 bytes64\ntable site bytes2\nbegin\n\
        insert 0 full 10 x00000000000000000000000000000000000000000000000000000000000000000000000000000000000000000000000000000000\
        00000000000000000000007f x4e4e4e4e4e4e4e4e4e4e4e4e4e4e4e4e4e4e4e4e4e4e4e4e4e4e4e4e4e4e4e4e4e4e4e4e4e4e4e4e4e4e4e4e4e4e4e4e\
        4e4e4e4e4e4e4e4e4e4e4e4e4e4e4e7f x8080808080808080808080808080808080808080808080808080808080808080808080808080808080808080\
        808080808080808080808080808080808080807f x00000000000000000000000000000000000000000000000000000000000000000000000000000000\
        0000000000000000000000000000000000000000000000ff x000000000000000000000000000000000000000000000000000000000000000000000000\
        000000000000000000000000000000000000000000000000000000ff x0000000000000000000000000000000000000000000000000000000000000000\
        0000000000000000000000000000000000000000000000000000000000000080 x4e4e4e4e4e4e4e4e4e4e4e4e4e4e4e4e4e4e4e4e4e4e4e4e4e4e4e4e\
        4e4e4e4e4e4e4e4e4e4e4e4e4e4e4e4e4e4e4e4e4e4e4e4e4e4e4e4e4e4e4e4e4e4e4eff\n\
        open 0 query site where 1 < 1 and 0 > x4eff by 0 get count\nopen 0 query site by 0 0 get min 0\n\
        set 0 full 10 6 xfffffffffffffffffffffffffffffffffffffffffffffffffffffffffffffffffffffffffffffffffffffffffffffffffffffffff\
        fffffffffffffffffffffff\ncolumn 0 site x4e7f\ninsert 0 site 18 x807f x8000\nask 0\ndeliver 0 p\nbase\ncommit 0 0\nbegin\n\
        insert 1 full 18 x80808080808080808080808080808080808080808080808080808080808080808080808080808080808080808080808080808080\
        80808080808080808080804e xffffffffffffffffffffffffffffffffffffffffffffffffffffffffffffffffffffffffffffffffffffffffffffffff\
        ffffffffffffffffffffffffffffff4e xffffffffffffffffffffffffffffffffffffffffffffffffffffffffffffffffffffffffffffffffffffffff\
        ffffffffffffffffffffffffffffffffffffff80 xffffffffffffffffffffffffffffffffffffffffffffffffffffffffffffffffffffffffffffffff\
        ffffffffffffffffffffffffffffffffffffffffffffff4e x7f7f7f7f7f7f7f7f7f7f7f7f7f7f7f7f7f7f7f7f7f7f7f7f7f7f7f7f7f7f7f7f7f7f7f7f\
        7f7f7f7f7f7f7f7f7f7f7f7f7f7f7f7f7f7f7f7f7f7f7f7f7f7f7f80 x8080808080808080808080808080808080808080808080808080808080808080\
        808080808080808080808080808080808080808080808080808080808080804e x00000000000000000000000000000000000000000000000000000000\
        00000000000000000000000000000000000000000000000000000000000000000000007f\nflush 4294967295\ndeliver 1 r0\nrun 0\n\
        open 0 query full by 0 5 get count\nset 0 full 15 4 x7f7f7f7f7f7f7f7f7f7f7f7f7f7f7f7f7f7f7f7f7f7f7f7f7f7f7f7f7f7f7f7f7f7f7\
        f7f7f7f7f7f7f7f7f7f7f7f7f7f7f7f7f7f7f7f7f7f7f7f7f7f7f7f7f00\ndeliver 0 p\nask 0\ndeliver 3 p\ninsert 1 site 13 x7fff\n\
        deliver 4 r0\nrun 0\ndeliver 4 r0\ninsert 1 site 17 x7f80\ndeliver 5 p\ndeliver 6 r0\nflush 2\ninsert 1 site 4 x0000\n\
        run 0\nversion 0\nopen 0 query site where 0 != x4eff by 0 0 0 0 0 0 0 0 0 get count min 0\ncolumn 1 site x7f4e\n\
        deliver 3 r0\nget 1 full 18 1\nopen 0 query site by 0 0 get min 0\ndump 0\nopen 0 query full get count count\nbegin\n\
        commit 2 0\nget 1 full 16 3\nget 1 full 18 4\nraw r0 4244030200170000000000000000010000000000000001ef\ncommit 1 0\n\
        flush 1\nbegin\nrenew 0\nask 0\nget 3 full 10 3\nrenew 0\nbegin\ndeliver 1 r0\n\
        raw p 42440303004000000000000000000100000000000000010000000000000001000000000000000000000000000000000100000000000000000000\
        000000000001\ndeliver 4 p\ninsert 4 full 8 x000000000000000000000000000000000000000000000000000000000000000000000000000000\
        00000000000000000000000000000000000000000000000080 x7f7f7f7f7f7f7f7f7f7f7f7f7f7f7f7f7f7f7f7f7f7f7f7f7f7f7f7f7f7f7f7f7f7f7f\
        7f7f7f7f7f7f7f7f7f7f7f7f7f7f7f7f7f7f7f7f7f7f7f7f7f7f7f7f4e x00000000000000000000000000000000000000000000000000000000000000\
        0000000000000000000000000000000000000000000000000000000000000000ff xffffffffffffffffffffffffffffffffffffffffffffffffffffff\
        ffffffffffffffffffffffffffffffffffffffffffffffffffffffffffffffffffffffff4e x4e4e4e4e4e4e4e4e4e4e4e4e4e4e4e4e4e4e4e4e4e4e4e\
        4e4e4e4e4e4e4e4e4e4e4e4e4e4e4e4e4e4e4e4e4e4e4e4e4e4e4e4e4e4e4e4e4e4e4e4e4e4e4e4e80 x00000000000000000000000000000000000000\
        00000000000000000000000000000000000000000000000000000000000000000000000000000000000000007f x808080808080808080808080808080\
        8080808080808080808080808080808080808080808080808080808080808080808080808080808080808080808080804e\n\
        insert 4 site 5 x7f80 x8000\ncolumn 3 full xffff\ndeliver 7 p\ndelete 4 full 11\nflush 0\n\
        set 1 full 13 6 x808080808080808080808080808080808080808080808080808080808080808080808080808080808080808080808080808080808\
        08080808080808080808080\ninsert 4 site 9 x7f00 x80807f\nversion 0\n\
        insert 4 full 19 x4e4e4e4e4e4e4e4e4e4e4e4e4e4e4e4e4e4e4e4e4e4e4e4e4e4e4e4e4e4e4e4e4e4e4e4e4e4e4e4e4e4e4e4e4e4e4e4e4e4e4e4e\
        4e4e4e4e4e4e4e4e4e4e4eff x000000000000000000000000000000000000000000000000000000000000000000000000000000000000000000000000\
        0000000000000000000000000000004e x0000000000000000000000000000000000000000000000000000000000000000000000000000000000000000\
        000000000000000000000000000000000000004e x4e4e4e4e4e4e4e4e4e4e4e4e4e4e4e4e4e4e4e4e4e4e4e4e4e4e4e4e4e4e4e4e4e4e4e4e4e4e4e4e\
        4e4e4e4e4e4e4e4e4e4e4e4e4e4e4e4e4e4e4e4e4e4e4e00 x808080808080808080808080808080808080808080808080808080808080808080808080\
        8080808080808080808080808080808080808080808080808080807f x7f7f7f7f7f7f7f7f7f7f7f7f7f7f7f7f7f7f7f7f7f7f7f7f7f7f7f7f7f7f7f7f\
        7f7f7f7f7f7f7f7f7f7f7f7f7f7f7f7f7f7f7f7f7f7f7f7f7f7f7f7f7f7f7fff xffffffffffffffffffffffffffffffffffffffffffffffffffffffff\
        ffffffffffffffffffffffffffffffffffffffffffffffffffffffffffffffffffffff4e\ndeliver 8 r0\ncommit 4 0\n\
        insert 3 site 6 x80ff x7f7f\nrun 0\ninsert 3 full 16 x80808080808080808080808080808080808080808080808080808080808080808080\
        8080808080808080808080808080808080808080808080808080808080ff x808080808080808080808080808080808080808080808080808080808080\
        8080808080808080808080808080808080808080808080808080808080808080807f x4e4e4e x00000000000000000000000000000000000000000000\
        000000000000000000000000000000000000000000000000000000000000000000000000000000000080 x000000000000000000000000000000000000\
        0000000000000000000000000000000000000000000000000000000000000000000000000000000000000000004e x4e4e4e4e4e4e4e4e4e4e4e4e4e4e\
        4e4e4e4e4e4e4e4e4e4e4e4e4e4e4e4e4e4e4e4e4e4e4e4e4e4e4e4e4e4e4e4e4e4e4e4e4e4e4e4e4e4e4e4e4e4e4e4e4e80 x00000000000000000000\
        000000000000000000000000000000000000000000000000000000000000000000000000000000000000000000000000000000000080 x80ff\n\
        insert 3 site 11 x0080 xff00\nopen 0 query site where 1 < 1 and 0 > x4eff by 0 get count\n\
        open 0 query full by 0 get count\ninsert 3 site 7 x8080 x7f4e\ndelete 3 site 11\ndump 0\nask 0\ndeliver 9 p\nshow 9\n\
        deliver 10 r0\nset 3 site 10 1 x0000\ndeliver 5 r0\nrun 0\ninsert 3 site 8 x7f00 x7f4e\ninsert 3 site 17 x4e7f x4e7f\n\
        flush 3\nflush 4294967295\nopen 0 query full where 7 > -100 get min 4\nopen 0 query full by 0 get count\n\
        insert 3 full 14 x7f7f7f7f7f7f7f7f7f7f7f7f7f7f7f7f7f7f7f7f7f7f7f7f7f7f7f7f7f7f7f7f7f7f7f7f7f7f7f7f7f7f7f7f7f7f7f7f7f7f7f7f\
        7f7f7f7f7f7f7f7f7f7f7f00 x808080808080808080808080808080808080808080808080808080808080808080808080808080808080808080808080\
        8080808080808080808080808080807f xffffffffffffffffffffffffffffffffffffffffffffffffffffffffffffffffffffffffffffffffffffffff\
        ffffffffffffffffffffffffffffffffffffff4e x00000000000000000000000000000000000000000000000000000000000000000000000000000000\
        000000000000000000000000000000000000000000000080 x7f7f7f7f7f7f7f7f7f7f7f7f7f7f7f7f7f7f7f7f7f7f7f7f7f7f7f7f7f7f7f7f7f7f7f7f\
        7f7f7f7f7f7f7f7f7f7f7f7f7f7f7f7f7f7f7f7f7f7f7f7f7f7f7f7f x4e4e4e4e4e4e4e4e4e4e4e4e4e4e4e4e4e4e4e4e4e4e4e4e4e4e4e4e4e4e4e4e\
        4e4e4e4e4e4e4e4e4e4e4e4e4e4e4e4e4e4e4e4e4e4e4e4e4e4e4e4e4e4e4e80 x4e4e4e4e4e4e4e4e4e4e4e4e4e4e4e4e4e4e4e4e4e4e4e4e4e4e4e4e\
        4e4e4e4e4e4e4e4e4e4e4e4e4e4e4e4e4e4e4e4e4e4e4e4e4e4e4e4e4e4e4e4e4e4e4e00 x7f80\n\
        insert 3 full 7 x808080808080808080808080808080808080808080808080808080808080808080808080808080808080808080808080808080808\
        080808080808080808080ff x0000000000000000000000000000000000000000000000000000000000000000000000000000000000000000000000000\
        000000000000000000000000000007f xffffff x7f7f7f7f7f7f7f7f7f7f7f7f7f7f7f7f7f7f7f7f7f7f7f7f7f7f7f7f7f7f7f7f7f7f7f7f7f7f7f7f7\
        f7f7f7f7f7f7f7f7f7f7f7f7f7f7f7f7f7f7f7f7f7f7f4e xfffffffffffffffffffffffffffffffffffffffffffffffffffffffffffffffffffffffff\
        fffffffffffffffffffffffffffffffffffffffffffffffffffff7f x7f7f7f7f7f7f7f7f7f7f7f7f7f7f7f7f7f7f7f7f7f7f7f7f7f7f7f7f7f7f7f7f7\
        f7f7f7f7f7f7f7f7f7f7f7f7f7f7f7f7f7f7f7f7f7f7f7f7f7f7f7f7f7f7f7f x808080808080808080808080808080808080808080808080808080808\
        08080808080808080808080808080808080808080808080808080808080808080808000 x7f7f\ncommit 3 0\nbase\nask 0\nbegin\n\
        deliver 11 p\ncommit 5 0\ncolumn 5 site x00\ndeliver 12 r0\nrun 0\ndeliver 13 p\nbegin\ndeliver 14 r0\n\
        insert 6 full 11 x80808080808080808080808080808080808080808080808080808080808080808080808080808080808080808080808080808080\
        8080808080808080808080ff x7f7f7f7f7f7f7f7f7f7f7f7f7f7f7f7f7f7f7f7f7f7f7f7f7f7f7f7f7f7f7f7f7f7f7f7f7f7f7f7f7f7f7f7f7f7f7f7f\
        7f7f7f7f7f7f7f7f7f7f7f7f7f7f7f4e x0000000000000000000000000000000000000000000000000000000000000000000000000000000000000000\
        00000000000000000000000000000000000000ff x00000000000000000000000000000000000000000000000000000000000000000000000000000000\
        00000000000000000000000000000000000000000000004e x4e4e4e4e4e4e4e4e4e4e4e4e4e4e4e4e4e4e4e4e4e4e4e4e4e4e4e4e4e4e4e4e4e4e4e4e\
        4e4e4e4e4e4e4e4e4e4e4e4e4e4e4e4e4e4e4e4e4e4e4e4e4e4e4e00 x4e4e4e4e4e4e4e4e4e4e4e4e4e4e4e4e4e4e4e4e4e4e4e4e4e4e4e4e4e4e4e4e\
        4e4e4e4e4e4e4e4e4e4e4e4e4e4e4e4e4e4e4e4e4e4e4e4e4e4e4e4e4e4e4e00 x80808080808080808080808080808080808080808080808080808080\
        80808080808080808080808080808080808080808080808080808080808080808080807f\ndeliver 14 r0\n\
        insert 6 full 7 x808080808080808080808080808080808080808080808080808080808080808080808080808080808080808080808080808080808\
        08080808080808080808000 x7f7f7f7f7f7f7f7f7f7f7f7f7f7f7f7f7f7f7f7f7f7f7f7f7f7f7f7f7f7f7f7f7f7f7f7f7f7f7f7f7f7f7f7f7f7f7f7f7\
        f7f7f7f7f7f7f7f7f7f7f7f7f7f7f00 xfffffffffffffffffffffffffffffffffffffffffffffffffffffffffffffffffffffffffffffffffffffffff\
        fffffffffffffffffffffffffffffffffffff80 xfffffffffffffffffffffffffffffffffffffffffffffffffffffffffffffffffffffffffffffffff\
        fffffffffffffffffffffffffffffffffffffffffffffff x4e4e4e4e4e4e4e4e4e4e4e4e4e4e4e4e4e4e4e4e4e4e4e4e4e4e4e4e4e4e4e4e4e4e4e4e4\
        e4e4e4e4e4e4e4e4e4e4e4e4e4e4e4e4e4e4e4e4e4e4e4e4e4e4e7f xfffffffffffffffffffffffffffffffffffffffffffffffffffffffffffffffff\
        fffffffffffffffffffffffffffffffffffffffffffffffffffffffffffffff xfffffffffffffffffffffffffffffffffffffffffffffffffffffffff\
        fffffffffffffffffffffffffffffffffffffffffffffffffffffffffffffffffffffff\ndeliver 15 r0\n\
        insert 6 full 16 x80808080808080808080808080808080808080808080808080808080808080808080808080808080808080808080808080808080\
        8080808080808080808080ff x7f7f7f7f7f7f7f7f7f7f7f7f7f7f7f7f7f7f7f7f7f7f7f7f7f7f7f7f7f7f7f7f7f7f7f7f7f7f7f7f7f7f7f7f7f7f7f7f\
        7f7f7f7f7f7f7f7f7f7f7f7f7f7f7f4e xffffffffffffffffffffffffffffffffffffffffffffffffffffffffffffffffffffffffffffffffffffffff\
        ffffffffffffffffffffffffffffffffffffff00 xffffffffffffffffffffffffffffffffffffffffffffffffffffffffffffffffffffffffffffffff\
        ffffffffffffffffffffffffffffffffffffffffffffff80 x000000000000000000000000000000000000000000000000000000000000000000000000\
        000000000000000000000000000000000000000000000000000000ff x4e4e4e4e4e4e4e4e4e4e4e4e4e4e4e4e4e4e4e4e4e4e4e4e4e4e4e4e4e4e4e4e\
        4e4e4e4e4e4e4e4e4e4e4e4e4e4e4e4e4e4e4e4e4e4e4e4e4e4e4e4e4e4e4e4e x4e4e4e4e4e4e4e4e4e4e4e4e4e4e4e4e4e4e4e4e4e4e4e4e4e4e4e4e\
        4e4e4e4e4e4e4e4e4e4e4e4e4e4e4e4e4e4e4e4e4e4e4e4e4e4e4e4e4e4e4e4e4e4e4e7f\ncommit 6 0\nrun 0\ndelete 6 site 15\n\
        open 0 query full by 0 get count\nbegin\ndeliver 1 p\nset 7 full 10 6 xfffffffffffffffffffffffffffffffffffffffffffffffffff\
        fffffffffffffffffffffffffffffffffffffffffffffffffffffffffffffffffffffffffff80\ndeliver 10 r0\nrenew 0\ndelete 7 full 17\n\
        open 0 query full by 6 4 get count\ninsert 7 site 10 x0080 x4e00\n\
        insert 7 full 2 x808080808080808080808080808080808080808080808080808080808080808080808080808080808080808080808080808080808\
        0808080808080808080807f x0000000000000000000000000000000000000000000000000000000000000000000000000000000000000000000000000\
        0000000000000000000000000000080 xfffffffffffffffffffffffffffffffffffffffffffffffffffffffffffffffffffffffffffffffffffffffff\
        fffffffffffffffffffffffffffffffffffff7f x808080808080808080808080808080808080808080808080808080808080808080808080808080808\
        0808080808080808080808080808080808080808080804e x0000000000000000000000000000000000000000000000000000000000000000000000000\
        000000000000000000000000000000000000000000000000000007f x80808080808080808080808080808080808080808080808080808080808080808\
        0808080808080808080808080808080808080808080808080808080808080ff x7f7f7f7f7f7f7f7f7f7f7f7f7f7f7f7f7f7f7f7f7f7f7f7f7f7f7f7f7\
        f7f7f7f7f7f7f7f7f7f7f7f7f7f7f7f7f7f7f7f7f7f7f7f7f7f7f7f7f7f7f7f7f7f7f4e 4\nask 0\ndeliver 16 p\ndeliver 17 r0\n\
        insert 6 site 14 xffff\npush 0 2\nshow 16\ndump 0\ndump 0\npush 0 2\ncommit 7 0\ndeliver 3 p\nrun 0\nbegin\n\
        deliver 13 r0\nopen 0 query full by 6 4 get count\nask 0\ncommit 6 0\ndeliver 19 p\ndeliver 20 r0\nrun 0\nrun 0\n\
        open 0 query full by 6 4 get count\ncommit 8 0\npush 0 2\nbegin\nask 0\ndeliver 21 p\nopen 0 query full by 0 get count\n\
        commit 9 0\nraw p 42440303004000000000000000000100000000000000020000000000000002000000000000000200000000000000020100000000\
        0000000200000000000000\ndeliver 22 r0\nstart\ndeliver 22 r0\nrun 0\nbegin\n\
        insert 10 full 5 x00000000000000000000000000000000000000000000000000000000000000000000000000000000000000000000000000000000\
        00000000000000000000007f x4e4e4e4e4e4e4e4e4e4e4e4e4e4e4e4e4e4e4e4e4e4e4e4e4e4e4e4e4e4e4e4e4e4e4e4e4e4e4e4e4e4e4e4e4e4e4e4e\
        4e4e4e4e4e4e4e4e4e4e4e4e4e4e4eff x4e4e4e4e4e4e4e4e4e4e4e4e4e4e4e4e4e4e4e4e4e4e4e4e4e4e4e4e4e4e4e4e4e4e4e4e4e4e4e4e4e4e4e4e\
        4e4e4e4e4e4e4e4e4e4e4e4e4e4e4e4e4e4e4e80 x4e00 x4e4e4e4e4e4e4e4e4e4e4e4e4e4e4e4e4e4e4e4e4e4e4e4e4e4e4e4e4e4e4e4e4e4e4e4e4e\
        4e4e4e4e4e4e4e4e4e4e4e4e4e4e4e4e4e4e4e4e4e4e4e4e4e4e4e xffffffffffffffffffffffffffffffffffffffffffffffffffffffffffffffffff\
        ffffffffffffffffffffffffffffffffffffffffffffffffffffffffffff4e x0000000000000000000000000000000000000000000000000000000000\
        000000000000000000000000000000000000000000000000000000000000000000007f\ndeliver 8 r0\ndeliver 11 r0\n\
        insert 10 site 18446744073709551615 xff80 x7f7f\npush 0 1\nset 10 site 5 0 x8000\ninsert 10 site 19 xff00 xff00\n\
        insert 10 site 1 xff7f xff00\ndelete 7 full 7\nask 0\nask 0\ndeliver 18 p\ndelete 10 site 5\ndeliver 22 p\n\
        set 10 site 18 1 x0000\ndeliver 24 p\ndeliver 25 r0\nrun 0\nshow 8589934592\ninsert 10 site 12 x4e4e xff7f\n\
        insert 10 site 5 x004e xff7f\ndeliver 1 r0\ninsert 10 full 16 x00000000000000000000000000000000000000000000000000000000000\
        000000000000000000000000000000000000000000000000000000000000000000080 x7f7f7f7f7f7f7f7f7f7f7f7f7f7f7f7f7f7f7f7f7f7f7f7f7f7\
        f7f7f7f7f7f7f7f7f7f7f7f7f7f7f7f7f7f7f7f7f7f7f7f7f7f7f7f7f7f7f7f7f7f7f7f7f7f00 x4e4e4e4e4e4e4e4e4e4e4e4e4e4e4e4e4e4e4e4e4e4\
        e4e4e4e4e4e4e4e4e4e4e4e4e4e4e4e4e4e4e4e4e4e4e4e4e4e4e4e4e4e4e4e4e4e4e4e4e4e4e4e4e4eff x80808080808080808080808080808080808\
        08080808080808080808080808080808080808080808080808080808080808080808080808080808080808080804e x4e4e4e4e4e4e4e4e4e4e4e4e4e4\
        e4e4e4e4e4e4e4e4e4e4e4e4e4e4e4e4e4e4e4e4e4e4e4e4e4e4e4e4e4e4e4e4e4e4e4e4e4e4e4e4e4e4e4e4e4e4e4e4e4e80 xfffffffffffffffffff\
        fffffffffffffffffffffffffffffffffffffffffffffffffffffffffffffffffffffffffffffffffffffffffffffffffffffffffffff xfffffffffff\
        fffffffffffffffffffffffffffffffffffffffffffffffffffffffffffffffffffffffffffffffffffffffffffffffffffffffffffffffffffff\n\
        open 0 query full get count count\nbegin\npush 0 2\ninsert 11 full 18 x7f7f7f7f7f7f7f7f7f7f7f7f7f7f7f7f7f7f7f7f7f7f7f7f7f7\
        f7f7f7f7f7f7f7f7f7f7f7f7f7f7f7f7f7f7f7f7f7f7f7f7f7f7f7f7f7f7f7f7f7f7f7f7f7fff xfffffffffffffffffffffffffffffffffffffffffff\
        fffffffffffffffffffffffffffffffffffffffffffffffffffffffffffffffffffffffffffffffffffff x7f7f7f7f7f7f7f7f7f7f7f7f7f7f7f7f7f7\
        f7f7f7f7f7f7f7f7f7f7f7f7f7f7f7f7f7f7f7f7f7f7f7f7f7f7f7f7f7f7f7f7f7f7f7f7f7f7f7f7f7f7f7f7f7f00 x4e4e4e4e4e4e4e4e4e4e4e4e4e4\
        e4e4e4e4e4e4e4e4e4e4e4e4e4e4e4e4e4e4e4e4e4e4e4e4e4e4e4e4e4e4e4e4e4e4e4e4e4e4e4e4e4e4e4e4e4e4e4e4e4e4e x4e4e4e4e4e4e4e4e4e4\
        e4e4e4e4e4e4e4e4e4e4e4e4e4e4e4e4e4e4e4e4e4e4e4e4e4e4e4e4e4e4e4e4e4e4e4e4e4e4e4e4e4e4e4e4e4e4e4e4e4e4e4e4e4e4e x00000000000\
        00000000000000000000000000000000000000000000000000000000000000000000000000000000000000000000000000000000000000000004e x808\
        08080808080808080808080808080808080808080808080808080808080808080808080808080808080808080808080808080808080808080808080808\
        080\ncommit 11 0\nask 0\ndeliver 26 r0\nversion 0\nversion 0\npush 0 0\n\
        insert 6 full 0 x808080808080808080808080808080808080808080808080808080808080808080808080808080808080808080808080808080808\
        0808080808080808080804e xfffffffffffffffffffffffffffffffffffffffffffffffffffffffffffffffffffffffffffffffffffffffffffffffff\
        fffffffffffffffffffffffffffff00 xfffffffffffffffffffffffffffffffffffffffffffffffffffffffffffffffffffffffffffffffffffffffff\
        fffffffffffffffffffffffffffffffffffff80 x4e4e4e4e4e4e4e4e4e4e4e4e4e4e4e4e4e4e4e4e4e4e4e4e4e4e4e4e4e4e4e4e4e4e4e4e4e4e4e4e4\
        e4e4e4e4e4e4e4e4e4e4e4e4e4e4e4e4e4e4e4e4e4e4e4e x4e4e4e4e4e4e4e4e4e4e4e4e4e4e4e4e4e4e4e4e4e4e4e4e4e4e4e4e4e4e4e4e4e4e4e4e4\
        e4e4e4e4e4e4e4e4e4e4e4e4e4e4e4e4e4e4e4e4e4e4e4e4e4e4e00 x80808080808080808080808080808080808080808080808080808080808080808\
        080808080808080808080808080808080808080808080808080808080808080 x808080808080808080808080808080808080808080808080808080808\
        08080808080808080808080808080808080808080808080808080808080808080808080\ninsert 10 site 4 x7f00 x7fff\ndeliver 26 p\n\
        commit 10 0\nask 0\nbegin\nflush 2\nflush 2\ndeliver 0 p\nraw r0 424403030040000000000000000001000000000000000a00000000000\
        0000200000000000000020000000000000002010000000000000002000000000000000294\ndeliver 29 r0\n",
    "workers 2\nreplicas 1\ntable item int bytes2 bytes1\ntable wide bytes64 int bytes64\nflush 3\nflush 1\n\
        open 0 query item where 1 = x4e7f by 2 get count\nbegin\nshow 0\nrun 0\ninsert 0 item 4 100 x8080 xff\ncommit 0 0\nask 0\n\
        deliver 0 p\nbegin\ndelete 1 item 19\ninsert 1 wide 8 x0000000000000000000000000000000000000000000000000000000000000000000\
        000000000000000000000000000000000000000000000000000000000007f 5 x000000000000000000000000000000000000000000000000000000000\
        00000000000000000000000000000000000000000000000000000000000000000000000\ndeliver 1 r0\n\
        insert 1 wide 0 x4e4e4e4e4e4e4e4e4e4e4e4e4e4e4e4e4e4e4e4e4e4e4e4e4e4e4e4e4e4e4e4e4e4e4e4e4e4e4e4e4e4e4e4e4e4e4e4e4e4e4e4e4\
        e4e4e4e4e4e4e4e4e4e4eff 3 x7f7f7f7f7f7f7f7f7f7f7f7f7f7f7f7f7f7f7f7f7f7f7f7f7f7f7f7f7f7f7f7f7f7f7f7f7f7f7f7f7f7f7f7f7f7f7f7\
        f7f7f7f7f7f7f7f7f7f7f7f7f7f7f7f80\ncommit 1 0\nbegin\nrun 0\ninsert 2 item 4294967296 -100 x4e4e x4e\n\
        insert 2 item 16 4 x804e xff\nopen 0 query wide join 1 wide by j2 0 get max j1\n\
        insert 2 wide 5 x000000000000000000000000000000000000000000000000000000000000000000000000000000000000000000000000000000000\
        0000000000000000000007f 3 x80808080808080808080808080808080808080808080808080808080808080808080808080808080808080808080808\
        080808080808080808080808080808080\ninsert 2 wide 14 x4e4e4e4e4e4e4e4e4e4e4e4e4e4e4e4e4e4e4e4e4e4e4e4e4e4e4e4e4e4e4e4e4e4e4\
        e4e4e4e4e4e4e4e4e4e4e4e4e4e4e4e4e4e4e4e4e4e4e4e4e4e4e4e4e7f 2 x4e4e4e4e4e4e4e4e4e4e4e4e4e4e4e4e4e4e4e4e4e4e4e4e4e4e4e4e4e4\
        e4e4e4e4e4e4e4e4e4e4e4e4e4e4e4e4e4e4e4e4e4e4e4e4e4e4e4e4e4e4e4e4e4e80\nflush 2\nopen 0 query wide by 0 0 get count\nbase\n\
        show 0\nask 0\nget 2 item 18 1\ninsert 2 wide 9 xfffffffffffffffffffffffffffffffffffffffffffffffffffffffffffffffffffffffff\
        fffffffffffffffffffffffffffffffffffffffffffffffffffffff 1 x7f7f7f7f7f7f7f7f7f7f7f7f7f7f7f7f7f7f7f7f7f7f7f7f7f7f7f7f7f7f7f7\
        f7f7f7f7f7f7f7f7f7f7f7f7f7f7f7f7f7f7f7f7f7f7f7f7f7f7f7f7f7f7f7f80\ninsert 2 item 6 4 x4eff x7f\ncommit 2 0\nversion 0\n\
        begin\ndeliver 2 p\ninsert 3 item 7 5 x7f4e x00\ndeliver 4 r0\ndeliver 3 r0\nflush 3\nrun 0\nabort 3\nask 0\ndeliver 4 p\n\
        begin\ndeliver 5 r0\ninsert 4 wide 12 x80808080808080808080808080808080808080808080808080808080808080808080808080808080808\
        080808080808080808080808080808080808080808080\ninsert 4 wide 13 x7f7f7f7f7f7f7f7f7f7f7f7f7f7f7f7f7f7f7f7f7f7f7f7f7f7f7f7f7\
        f7f7f7f7f7f7f7f7f7f7f7f7f7f7f7f7f7f7f7f7f7f7f7f7f7f7f7f7f7f7f7f7f7f7f7f 2 x7f7f7f7f7f7f7f7f7f7f7f7f7f7f7f7f7f7f7f7f7f7f7f7\
        f7f7f7f7f7f7f7f7f7f7f7f7f7f7f7f7f7f7f7f7f7f7f7f7f7f7f7f7f7f7f7f7f7f7f7f7f7f7f7f4e\nset 4 item 16 1 x7f00\nrun 0\n\
        open 0 query item where 1 > x80ff and 1 >= xff80 and 1 > x80ff and 1 > x80ff and 1 > x80ff and 1 > x80ff and 1 > x80ff an\
        d 1 > x80ff and 1 > x80ff get max 3\nopen 0 query wide where 0 = x80808080808080808080808080808080808080808080808080808080\
        80808080808080808080808080808080808080808080808080808080808080808080804e by 0 get count\ndeliver 5 r0\nask 0\n\
        deliver 0 r0\ncommit 4 1\ndeliver 6 p\ndeliver 0 r0\nbegin\ndeliver 7 r0\ninsert 5 item 3 2 x4e80 x80\nrun 0\n\
        deliver 8 p\ninsert 5 item 13 x0000ff x8080 x80\ndeliver 9 r0\ndeliver 2 p\nshow 10\nflush 2\ncommit 5 0\ndump 0\nbegin\n\
        flush 1\ndelete 6 wide 10\nrun 0\nopen 0 query wide where 0 = x80808080808080808080808080808080808080808080808080808080808\
        08080808080808080808080808080808080808080808080808080808080808080804e by 0 get count\n\
        open 0 query wide where 2 > xfffffffffffffffffffffffffffffffffffffffffffffffffffffffffffffffffffffffffffffffffffffffffffff\
        fffffffffffffffffffffffffffffffffff and 0 >= x7f7f7f7f7f7f7f7f7f7f7f7f7f7f7f7f7f7f7f7f7f7f7f7f7f7f7f7f7f7f7f7f7f7f7f7f7f7f\
        7f7f7f7f7f7f7f7f7f7f7f7f7f7f7f7f7f7f7f7f7f7f7f7f7f7f get sum 1\ninsert 6 item 15 -100 x8000 xff\npush 1 0\nraw p 82\n\
        open 0 query item where 2 = x4e by 2 get min 1\nget 6 item 16 0\nask 0\nshow 10\nshow 10\ndeliver 11 p\ndeliver 12 p\n\
        set 6 wide 0 2 x4e4e4e4e4e4e4e4e4e4e4e4e4e4e4e4e4e4e4e4e4e4e4e4e4e4e4e4e4e4e4e4e4e4e4e4e4e4e4e4e4e4e4e4e4e4e4e4e4e4e4e4e4e\
        4e4e4e4e4e4e4e4e4e4e80\ncolumn 6 item x00\nraw r0 4244030100be01000000000000000000000000000000040100020101000000000000000d\
        00887f7f7f7f7f7f7f7f7f7f7f7f7f7f7f7f7f7f7f7f7f7f7f7f7f7f7f7f7f7f7f7f7f7f7f7f7f7f7f7f7f7f7f7f7f7f7f7f7f7f7f7f7f7f7f7f7f7f7f\
        7f7f7f7f7f00000000000000027f7f7f7f7f7f7f7f7f7f7f7f7f7f7f7f7f7f7f7f7f7f7f7f7f7f7f7f7f7f7f7f7f7f7f7f7f7f7f7f7f7f7f7f7f7f7f7f\
        7f7f7f7f7f7f7f7f7f7f7f7f7f7f7f4e02000000000000000010000800027f00\nflush 2\ndeliver 13 r0\nabort 6\nbase\nbegin\nrun 0\n\
        renew 0\ndeliver 15 p\ninsert 7 wide 10 x7f7f7f7f7f7f7f7f7f7f7f7f7f7f7f7f7f7f7f7f7f7f7f7f7f7f7f7f7f7f7f7f7f7f7f7f7f7f7f7f7\
        f7f7f7f7f7f7f7f7f7f7f7f7f7f7f7f7f7f7f7f7f7f7f4e 9223372036854775807 x80808080808080808080808080808080808080808080808080808\
        08080808080808080808080808080808080808080808080808080808080808080808080804e\ndeliver 16 r0\ndelete 7 wide 5\n\
        insert 7 item 9223372036854775808 -1 x4e4e x80\nrun 0\ninsert 7 item 18 2 x004e xff 1 x7fff\nget 7 item 15 0\n\
        open 0 query wide where 0 = x808080808080808080808080808080808080808080808080808080808080808080808080808080808080808080808\
        0808080808080808080808080808080804e by 0 get count\ncommit 8 0\ndeliver 5 r0\ncommit 7 1\ndeliver 17 p\ndeliver 18 r0\n\
        begin\nset 8 wide 8 0 x000000000000000000000000000000000000000000000000000000000000000000000000000000000000000000000000000\
        0000000000000000000000000004e\npush 1 1\ninsert 8 item 9 -100 x0000 x80\nrun 0\n\
        insert 8 wide 18446744073709551615 xffffffffffffffffffffffffffffffffffffffffffffffffffffffffffffffffffffffffffffffffffffff\
        ffffffffffffffffffffffffffffffffffffffff00 5 x7f7f7f7f7f7f7f7f7f7f7f7f7f7f7f7f7f7f7f7f7f7f7f7f7f7f7f7f7f7f7f7f7f7f7f7f7f7f\
        7f7f7f7f7f7f7f7f7f7f7f7f7f7f7f7f7f7f7f7f7f7f7f7f7fff\nopen 0 query item by 0 get max 0 count\nstop 0\n\
        open 0 query item where 2 = x00 by 0 get max 0\ndelete 5 wide 8\nget 7 item 3 2\n\
        open 0 query wide join 1 wide where j2 != x7f7f7f7f7f7f7f7f7f7f7f7f7f7f7f7f7f7f7f7f7f7f7f7f7f7f7f7f7f7f7f7f7f7f7f7f7f7f7f7\
        f7f7f7f7f7f7f7f7f7f7f7f7f7f7f7f7f7f7f7f7f7f7f7f00 and j2 > xffffffffffffffffffffffffffffffffffffffffffffffffffffffffffffff\
        ffffffffffffffffffffffffffffffffffffffffffffffffffffffffffffffff7f get sum j3\nstart\nask 0\nset 6 wide 3 1 100\nbegin\n\
        insert 9 wide 0 x808080808080808080808080808080808080808080808080808080808080808080808080808080808080808080808080808080808\
        08080808080808080808000 100 x808080808080808080808080808080808080808080808080808080808080808080808080808080808080808080808\
        08080808080808080808080808080808080\nset 9 wide 5 3 100\ncommit 9 1\ndeliver 19 p\nbegin\ncommit 10 1\ncommit 4 1\nbegin\n\
        deliver 20 r0\nset 11 wide 8 0 x4e4e4e4e4e4e4e4e4e4e4e4e4e4e4e4e4e4e4e4e4e4e4e4e4e4e4e4e4e4e4e4e4e4e4e4e4e4e4e4e4e4e4e4e4e\
        4e4e4e4e4e4e4e4e4e4e4e4e4e4e4e4e4e4e80\nbase\nversion 0\nrun 0\ninsert 11 item 2 2 5 xff\n\
        open 0 query wide where 0 = x808080808080808080808080808080808080808080808080808080808080808080808080808080808080808080808\
        0808080808080808080808080808080804e by 0 get count\nstop 0\nbegin\nbegin\nstart\n\
        open 0 query item where 1 = x4e7f by 2 get count\nset 8589934592 item 2 1 x8080\nask 0\npush 1 1\ndeliver 21 p\ndump 0\n\
        deliver 22 r0\ndump 0\ncolumn 10 item xfffffffffffffffffffffffffffffffffffffffffffffffffffffffffffffffffffffffffffffffffff\
        fffffffffffffffffffffffffffffffffffffffffff7f\nbegin\nrun 0\nopen 0 query item where 2 = x00 by 0 get max 0\nask 0\n\
        deliver 23 p\ncommit 12 1\nbegin\ninsert 13 item 12 x4e4eff x8080 x80\ndump 0\ndelete 13 wide 13\ndeliver 24 r0\ndump 0\n\
        insert 13 item 5 -100 x8080 x4e\ndeliver 17 p\nrun 0\ndeliver 22 p\n\
        open 0 query wide where 2 > xfffffffffffffffffffffffffffffffffffffffffffffffffffffffffffffffffffffffffffffffffffffffffffff\
        fffffffffffffffffffffffffffffffffff and 0 >= x7f7f7f7f7f7f7f7f7f7f7f7f7f7f7f7f7f7f7f7f7f7f7f7f7f7f7f7f7f7f7f7f7f7f7f7f7f7f\
        7f7f7f7f7f7f7f7f7f7f7f7f7f7f7f7f7f7f7f7f7f7f7f7f7f7f get sum 1\n\
        insert 13 wide 13 x0000000000000000000000000000000000000000000000000000000000000000000000000000000000000000000000000000000\
        00000000000000000000000ff -1 x00000000000000000000000000000000000000000000000000000000000000000000000000000000000000000000\
        0000000000000000000000000000000000ff\ninsert 13 item 13 0 x0080 x80\nflush 2\nask 0\ndeliver 25 p\npush 0 4\n\
        insert 11 item 9 3 x007f x7f\npush 0 4\ndeliver 26 r0\ndeliver 20 r0\ninsert 13 item 14 -9223372036854775808 x0000 x4e\n\
        run 0\ndump 0\nset 13 wide 0 0 xffff7f\ninsert 13 wide 6 x0000000000000000000000000000000000000000000000000000000000000000\
        000000000000000000000000000000000000000000000000000000000000004e 100 x4e4e4e4e4e4e4e4e4e4e4e4e4e4e4e4e4e4e4e4e4e4e4e4e4e4e\
        4e4e4e4e4e4e4e4e4e4e4e4e4e4e4e4e4e4e4e4e4e4e4e4e4e4e4e4e4e4e4e4e4e4e4e4e4e4e\nopen 0 query wide by 0 0 get count\nask 0\n\
        commit 13 0\nbegin\ndeliver 8589934592 p\nset 14 item 4 1 x0080\nopen 0 query wide where 1 = 2 get max 1 sum 3\n\
        delete 14 wide 8\ncommit 14 1\nbegin\nabort 15\ndeliver 27 p\nflush 3\nbegin\npush 1 1\n",
    "workers 1\nreplicas 1\ntable site bytes2\ntable wide bytes64 int bytes64\ntable acct int int\nget 0 wide 3 3\nabort 0\n\
        delete 0 acct 14\nbegin\ndeliver 0 r0\nstop 1\nbegin\nstart\nset 0 acct 18 0 5\nset 0 acct 1 0 2\ndeliver 0 r0\nbegin\n\
        flush 1\ndeliver 0 p\ncommit 1 0\npush 0 0\nbase\nopen 0 query site get count max 1\nbegin\nraw p -\n\
        set 2 site 18 0 x4e4e\nbegin\ndeliver 0 r0\ninsert 3 site 2 x007f\ninsert 3 acct 16 -1 1\nraw p -\n\
        open 0 query site by 0 get min 0 min 0\ncommit 3 0\nask 0\ncommit 2 0\ndeliver 0 p\ndeliver 1 r0\nbegin\n\
        insert 4 acct 19 -2 3\nrun 0\ncommit 4 0\nflush 3\ndeliver 3 p\nshow 0\nbegin\n\
        insert 5 wide 13 x80808080808080808080808080808080808080808080808080808080808080808080808080808080808080808080808080808080\
        80808080808080808080807f 100 x7f7f7f7f7f7f7f7f7f7f7f7f7f7f7f7f7f7f7f7f7f7f7f7f7f7f7f7f7f7f7f7f7f7f7f7f7f7f7f7f7f7f7f7f7f7f\
        7f7f7f7f7f7f7f7f7f7f7f7f7f7f7f7f7f80\nshow 3\ninsert 5 wide 2 x4e4e4e4e4e4e4e4e4e4e4e4e4e4e4e4e4e4e4e4e4e4e4e4e4e4e4e4e4e4\
        e4e4e4e4e4e4e4e4e4e4e4e4e4e4e4e4e4e4e4e4e4e4e4e4e4e4e4e4e4e4e4e4e4e80 3 x7f7f7f7f7f7f7f7f7f7f7f7f7f7f7f7f7f7f7f7f7f7f7f7f7\
        f7f7f7f7f7f7f7f7f7f7f7f7f7f7f7f7f7f7f7f7f7f7f7f7f7f7f7f7f7f7f7f7f7f7f7f7f7f7f7f\ncommit 5 0\nbegin\n\
        insert 6 site 3 xff00\ninsert 6 acct 15 -2 3\ninsert 6 wide 3 x80808080808080808080808080808080808080808080808080808080808\
        08080808080808080808080808080808080808080808080808080808080808080804e 3 x0000000000000000000000000000000000000000000000000\
        000000000000000000000000000000000000000000000000000000000000000000000000000004e\n\
        open 0 query site where 1 >= 100 by 0 get count\ninsert 6 site 11 x004e\n\
        set 6 wide 17 0 x4e4e4e4e4e4e4e4e4e4e4e4e4e4e4e4e4e4e4e4e4e4e4e4e4e4e4e4e4e4e4e4e4e4e4e4e4e4e4e4e4e4e4e4e4e4e4e4e4e4e4e4e4\
        e4e4e4e4e4e4e4e4e4e4eff\nopen 0 query wide by 3 0 get count\nversion 0\n\
        open 0 query wide join 1 acct where j2 > 1 by j0 2 get sum j1\nopen 0 query site where 1 >= 100 by 0 get count\n\
        insert 6 acct 18 5 0\nopen 0 query wide by 0 0 0 0 0 0 0 0 0 get count count\n\
        open 0 query acct where 1 >= 5 by 1 0 get max 1\nask 0\ndeliver 2 p\ndeliver 3 r0\nflush 1\n\
        raw p 4244030200170000000000000000010000000000000001\ninsert 6 acct 7 0 1\n\
        insert 6 wide 4 x7f7f7f7f7f7f7f7f7f7f7f7f7f7f7f7f7f7f7f7f7f7f7f7f7f7f7f7f7f7f7f7f7f7f7f7f7f7f7f7f7f7f7f7f7f7f7f7f7f7f7f7f7\
        f7f7f7f7f7f7f7f7f7f7f80 -1 xffffffffffffffffffffffffffffffffffffffffffffffffffffffffffffffffffffffffffffffffffffffffffffff\
        ffffffffffffffffffffffffffffffffff\nflush 4294967295\ninsert 6 wide 17 xffffffffffffffffffffffffffffffffffffffffffffffffff\
        ffffffffffffffffffffffffffffffffffffffffffffffffffffffffffffffffffffffffffffff 1 x4e4e4e4e4e4e4e4e4e4e4e4e4e4e4e4e4e4e4e4e\
        4e4e4e4e4e4e4e4e4e4e4e4e4e4e4e4e4e4e4e4e4e4e4e4e4e4e4e4e4e4e4e4e4e4e4e4e4e4e4e4e4e4e4e00 4 x0000\ninsert 6 site 13 x7f4e\n\
        run 0\ninsert 6 wide 15 x8080808080808080808080808080808080808080808080808080808080808080808080808080808080808080808080808\
        080808080808080808080808080804e -9223372036854775808 x4e4e4e4e4e4e4e4e4e4e4e4e4e4e4e4e4e4e4e4e4e4e4e4e4e4e4e4e4e4e4e4e4e4e\
        4e4e4e4e4e4e4e4e4e4e4e4e4e4e4e4e4e4e4e4e4e4e4e4e4e4e4e4e4e4e\ndeliver 5 p\ndump 0\n\
        insert 6 wide 12 2 -1 x808080808080808080808080808080808080808080808080808080808080808080808080808080808080808080808080808\
        08080808080808080808080808000\ndelete 5 acct 12\ndeliver 6 r0\nrenew 0\ndeliver 9 p\ndeliver 10 r0\ndump 0\ndump 0\n\
        deliver 7 r0\ncommit 6 0\nbegin\nrun 0\ndelete 7 site 2\ninsert 7 site 13 x7f80\nshow 13\ndeliver 8 r0\ndeliver 11 p\n\
        column 7 site x80808080808080808080808080808080808080808080808080808080808080808080808080808080808080808080808080808080808\
        080808080808080808000\ninsert 7 site 5 x8000 x4e4e4e4e4e4e4e4e4e4e4e4e4e4e4e4e4e4e4e4e4e4e4e4e4e4e4e4e4e4e4e4e4e4e4e4e4e4e\
        4e4e4e4e4e4e4e4e4e4e4e4e4e4e4e4e4e4e4e4e4e4e4e4e4e80\ncommit 7 0\nopen 0 query site where 0 != x004e get max 0\n\
        insert 6 acct 16 0 2\ndump 0\nflush 4294967295\npush 0 1\nbegin\ndump 0\nrun 0\nshow 11\nshow 11\ncommit 8 0\nbegin\n\
        ask 0\ndeliver 14 p\ndeliver 15 r0\nrun 0\npush 0 3\nversion 0\ncommit 9 0\ncommit 11 0\nbegin\ndeliver 17 r0\nrun 0\n\
        insert 10 site 6 x7f00\nopen 0 query wide join 1 wide by 0 get count\nrestart 0 3\ncommit 10 0\nbegin\nshow 15\npush 0 0\n\
        open 0 query acct join 0 acct where 1 <= -1 by j2 get min j1\ncolumn 8 site x7f4e\n\
        set 11 wide 13 2 x80808080808080808080808080808080808080808080808080808080808080808080808080808080808080808080808080808080\
        8080808080808080808080ff\nopen 0 query wide by 0 0 0 0 0 0 0 0 0 get count count\nflush 0\nabort 11\nflush 3\n\
        open 0 query wide by 3 0 get count\nopen 0 query site get count max 1\nopen 0 query site by 0 get min 0 min 0\n\
        commit 9 0\nbase\nbegin\ncommit 12 0\npush 0 0\nask 0\nset 9 acct 19 1 0\ndeliver 12 r0\nbegin\ndeliver 19 p\n\
        deliver 13 r0\nshow 20\ndeliver 20 r0\ninsert 13 acct 3 100 1\nshow 0\nrun 0\nrenew 0\nbegin\ndeliver 22 p\n\
        insert 14 site 2 x0000\npush 0 0\ndeliver 23 r0\nrun 0\nget 14 acct 18 1\nflush 1\ndeliver 16 r0\ncommit 14 0\n\
        delete 14 site 3\ndeliver 17 r0\ndump 0\nbegin\nflush 4294967295\ninsert 15 acct 13 -100 -2\nflush 3\nflush 2\n\
        commit 12 0\ninsert 15 acct 13 -9223372036854775808 -2\ndeliver 24 p\n\
        insert 15 wide 14 x0000000000000000000000000000000000000000000000000000000000000000000000000000000000000000000000000000000\
        0000000000000000000000080 4 x000000000000000000000000000000000000000000000000000000000000000000000000000000000000000000000\
        00000000000000000000000000000000000\ndeliver 25 r0\nrun 0\ncolumn 15 wide x4e80\ndeliver 27 p\ncommit 15 0\n\
        open 0 query acct join 0 wide by 1 2 get count\nshow 23\nopen 0 query site where 0 = x7f80 and 0 > x7f00 by 0 0 get count\
        \ncommit 13 0\nask 0\ndump 0\nversion 0\nbegin\ndeliver 26 p\n\
        set 16 wide 2 2 x000000000000000000000000000000000000000000000000000000000000000000000000000000000000000000000000000000000\
        00000000000000000000080\ndeliver 27 r0\nrun 0\nopen 0 query site by 0 get min 0 min 0\ndump 0\ndump 0\n\
        open 0 query wide by 3 0 get count\nask 0\nget 16 acct 16 0\n\
        insert 16 wide 14 x4e4e4e4e4e4e4e4e4e4e4e4e4e4e4e4e4e4e4e4e4e4e4e4e4e4e4e4e4e4e4e4e4e4e4e4e4e4e4e4e4e4e4e4e4e4e4e4e4e4e4e4\
        e4e4e4e4e4e4e4e4e4e4e4e80 100 x8080808080808080808080808080808080808080808080808080808080808080808080808080808080808080808\
        0808080808080808080808080808080808080\ndeliver 28 p\ndeliver 29 r0\ninsert 16 acct 17 0 4\n\
        insert 16 acct 1 3 -9223372036854775808\ndelete 16 acct 18\n",
];
